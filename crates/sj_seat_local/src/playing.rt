//! A party of an accepted file, played by lines.
ghost use Rattle.std.specs.Prelude.{◌≡◌, ◌<◌, IfSome, length};
ghost use Rattle.sj_check.specs.Held.{file_in};
ghost use Rattle.sj_lang.specs.FileView.{file_of};
ghost use Rattle.sj_seat_local.specs.Played.{HasPlayed, HasTold, IsToldSo, IsVerdict};

use crate::code::ByLines;
use crate::output::{NO_MEMORY, WRITE_FAULT, said, status_of};
use crate::threads::{file_shares, name_crosses, texts_cross};
use sj_base::{NoMemory, Sink, Source};
use sj_check::Accepted;
use sj_lane::RingLinks;
use sj_lang::File;
use sj_seat_end::{Told, run_alone, told_with};
use sj_seat_lines::{Ended, Left, LineReader, Lines, Party, first_names};
use sj_seat_run::SeatedRefusal;
use sj_seat_texts::Texts;
use sj_work::NoGate;
use std::alloc::Global;
use std::thread::Threads;

/// The looks of a party with nothing to do, and of a call that waits.
pub const LOOKS: u32 = 1_000;

/// The status where a line can't be read.
const READ_FAULT: u8 = 2;

/// What playing a party by lines leaves: the status, and where the answers went, if that came back.
#[derive(Drop)]
pub struct Played<K> {
    pub status: u8,
    pub out: Option<K>,
}

/// Nothing came back.
pub(crate) fn lost<K>(status: u8) -> Played<K>
    ensures { result.status ≡ status }
{
    Played { status, out: None }
}

/// The lines as the code of that party.
fn code_for<'a, S: Source + Drop, K: Sink + Drop>(
    alloc: Global,
    accepted: &'a Accepted,
    party: u16,
    patience: u32,
    lines: LineReader<S>,
    out: K,
) -> Result<ByLines<'a, S, K>, NoMemory> {
    let file = accepted.file();
    let texts = Texts::of(alloc, &file.names.texts)?;
    let names = first_names(alloc, file, party)?;
    let own = Party::new(alloc, file, texts, names, patience);
    let lines = Lines::new(alloc, own, lines, out);
    Ok(ByLines { lines })
}

/// The status where lines couldn't be read or answered; none where they were over.
#[tactic(auto, using(crate::proofs::VerdictLemmas::none_of_2, crate::proofs::VerdictLemmas::none_of_10, crate::proofs::VerdictLemmas::none_of_11))]
fn fault_of(ended: Option<Ended>) -> Option<u8>
    ensures { IfSome result (λ s. IsVerdict s → ⊥) }
{
    match ended {
        Some(Ended::Unread) => Some(READ_FAULT),
        Some(Ended::Unwritten) => Some(WRITE_FAULT),
        Some(Ended::NoMemory) => Some(NO_MEMORY),
        _ => None,
    }
}

/// Writes the transcript after the answers to lines, where all of these could be read and answered.
fn finish<K: Sink + Drop>(ended: Option<Ended>, sink: K, told: Result<Told, NoMemory>) -> Played<K>
    ensures { IsVerdict result.status → HasTold K.written told result }
{
    let mut out = sink;
    if let Some(status) = fault_of(ended) {
        return Played {
            status,
            out: Some(out),
        };
    }
    let status = tell(&mut out, &told);
    Played {
        status,
        out: Some(out),
    }
}

/// Writes the transcript, and answers the status.
fn tell<K: Sink>(out: &mut K, told: &Result<Told, NoMemory>) -> u8
    ensures { IsVerdict result → IsToldSo (K.written out.old) (K.written out.new) told.now result }
{
    match told {
        Ok(told) => said(out, &told.text, status_of(told.verdict)),
        Err(_) => NO_MEMORY,
    }
}

// The status of a run that was refused, which is none of a verdict.
#[tactic(auto, using(crate::proofs::VerdictLemmas::none_of_8, crate::proofs::VerdictLemmas::none_of_9, crate::proofs::VerdictLemmas::none_of_11))]
fn status_for(refusal: SeatedRefusal) -> u8
    ensures { IsVerdict result → ⊥ }
{
    match refusal {
        SeatedRefusal::LinkFault => 8,
        SeatedRefusal::NoMemory => NO_MEMORY,
        SeatedRefusal::LacksPlace | SeatedRefusal::Damaged(_) | SeatedRefusal::Unfit => 9,
    }
}

/// Plays the party of the file by lines, the others on threads beside it, over rings. Each line is
/// answered by a line as soon as it is done or refused. A call that waits is tried so often again.
/// The transcript comes last, and the status is that of its verdict.
pub fn play_lines<R: Threads + Sync, S: Source + Send + Drop, K: Sink + Send + Drop>(
    rt: &R,
    alloc: Global,
    accepted: &Accepted,
    party: u16,
    patience: u32,
    lines: LineReader<S>,
    out: K,
) -> Played<K>
    requires { party < length (file_of (file_in accepted.now)).parties }

    // What is written last is the transcript of a quiet world of the file, in which that party alone
    // was played by lines, and the status is that of its verdict.
    ensures { IsVerdict result.status
        → HasPlayed K.written (file_of (file_in accepted.now)) party result }
{
    let code = match code_for(alloc, accepted, party, patience, lines, out) {
        Ok(code) => code,
        Err(NoMemory) => return lost(NO_MEMORY),
    };
    file_shares();
    texts_cross();
    name_crosses();
    let mut links = RingLinks::new();
    let end = match run_alone(
        rt,
        alloc,
        accepted,
        party,
        code,
        Texts::MOST,
        LOOKS,
        &mut links,
        &NoGate,
    ) {
        Ok(end) => end,
        Err(refusal) => return lost(status_for(refusal)),
    };
    let Left { ended, texts, sink } = end.code.lines.into_left();
    let told = told_with(alloc, accepted.file(), texts, &end.world);
    finish(ended, sink, told)
}
