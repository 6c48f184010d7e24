//! What is written beside the answers to lines, and statuses.
ghost use Rattle.std.specs.Prelude.{◌≡◌, ◌⊎◌, IfOk};
ghost use Rattle.sj_seat_local.specs.Played.{SaidSo};
ghost use Rattle.sj_seat_local.specs.Seated.{IsCheckStatus, Says, no_party_status, no_party_text};
ghost use Rattle.sj_text.specs.Statuses.{no_memory_status};
ghost use Rattle.sj_tool.specs.Texts.{verdict_status};

use sj_base::{MemSource, NoMemory, Sink, write_all_of};
use sj_lane::RingLinks;
use sj_semantics::Verdict;
use sj_text::put;
use sj_tool::sj;
use sj_work::NoGate;
use std::alloc::Global;
use std::thread::Threads;

/// The status out of memory.
pub const NO_MEMORY: u8 = 11;

/// The status where a write failed.
pub const WRITE_FAULT: u8 = 10;

/// The status where no file has the text.
const SYNTAX: u8 = 4;

/// The status where a file isn't accepted.
const UNACCEPTED: u8 = 5;

/// The status where the file hasn't the party.
const NO_PARTY: u8 = 14;

/// Writes the text, and answers the status; that of a failed write where it can't be written.
pub fn said<K: Sink>(out: &mut K, text: &[u8], status: u8) -> u8
    ensures { SaidSo (K.written out.old) (K.written out.new) text.now status result }
{
    match write_all_of(out, text) {
        Ok(()) => status,
        Err(_) => WRITE_FAULT,
    }
}

/// Writes what `sj check` says of a file that isn't accepted, and answers its status.
pub fn checked<R: Threads + Sync, K: Sink>(rt: &R, alloc: Global, bytes: Vec<u8>, out: &mut K) -> u8
    ensures { IsCheckStatus result }
{
    let mut words = Vec::new(alloc);
    let mut word = String::new(alloc);
    if word.push_str("check").is_err() || words.push(word).is_err() {
        return NO_MEMORY;
    }
    let mut src = MemSource::new(bytes, Vec::new(alloc));
    let status = sj(
        rt,
        alloc,
        &words,
        &mut src,
        out,
        &mut RingLinks::new(),
        &NoGate,
    );
    match status {
        SYNTAX => SYNTAX,
        UNACCEPTED => UNACCEPTED,
        WRITE_FAULT => WRITE_FAULT,
        // No other status comes of such a file where there is memory.
        _ => NO_MEMORY,
    }
}

/// Writes that the file has no such party, and answers the status of that.
pub fn said_no_party<K: Sink>(alloc: Global, word: &[u8], out: &mut K) -> u8
    ensures { SaidSo (K.written out.old) (K.written out.new) (no_party_text word.now) no_party_status result
        ⊎ (result ≡ no_memory_status) }
{
    match no_party_text(alloc, word) {
        Ok(text) => said(out, &text, NO_PARTY),
        Err(NoMemory) => NO_MEMORY,
    }
}

fn no_party_text(alloc: Global, word: &[u8]) -> Result<Vec<u8>, NoMemory>
    ensures { IfOk result (λ t. t.items ≡ no_party_text word.now) }
{
    let mut text = Vec::new(alloc);
    put(&mut text, b"no party ")?;
    put(&mut text, word)?;
    put(&mut text, b"\n")?;
    Ok(text)
}

/// The status of the verdict, as `sj run` has it.
pub(crate) fn status_of(verdict: Verdict) -> u8
    ensures { result ≡ verdict_status verdict }
{
    match verdict {
        Verdict::Done => 0,
        Verdict::Blocked => 6,
        Verdict::Long => 7,
    }
}
