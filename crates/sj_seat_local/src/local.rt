//! From a file and lines to the transcript.
ghost use Rattle.std.specs.Prelude.{◌≡◌, ◌≤◌, length};
ghost use Rattle.sj_lang.specs.Limits.{file_limit};
ghost use Rattle.sj_seat_local.specs.Played.{IsVerdict};
ghost use Rattle.sj_seat_local.specs.Seated.{HasSeated, PlaysSource, PlaysText, Says};

use crate::files::{Before, accepted, file_before};
use crate::output::{NO_MEMORY, WRITE_FAULT, checked, said, said_no_party};
use crate::parties::party_named;
use crate::playing::{Played, lost, play_lines};
use sj_base::{NoMemory, Sink, Source, write_all_of};
use sj_seat_lines::LineReader;
use std::alloc::Global;
use std::thread::Threads;

/// Plays the party of that name, or of that number, by the lines after the file and a line `%%talk`.
/// The others are on threads beside it. Where the file and the party are there it writes `go`, then
/// one line for each, and last the transcript.
pub fn seat_local<R: Threads + Sync, S: Source + Send + Drop, K: Sink + Send + Drop>(
    rt: &R,
    alloc: Global,
    party: &[u8],
    patience: u32,
    src: S,
    out: K,
) -> Played<K>
    // Whatever comes has its cause in the source and in the word.
    ensures comes { PlaysSource K.written (S.left src) party.now (K.written out) result }

    // A status of a verdict is that of the transcript, which was written last.
    ensures played { IsVerdict result.status → HasSeated K.written (S.left src) party.now result }
{
    let mut lines = LineReader::new(alloc, src);
    match file_before(alloc, &mut lines) {
        Ok(Before::File(bytes)) => seat_file(rt, alloc, party, patience, bytes, lines, out),
        Ok(Before::ReadFault) => ends_so(out, b"read fault\n", 2),
        Ok(Before::TooLarge) => ends_so(out, b"too large\n", 3),
        Ok(Before::NoTalk) => ends_so(out, b"talk L1 at 0\n", 12),
        Err(NoMemory) => lost(NO_MEMORY),
    }
}

// The text is written, and all ends with that status.
fn ends_so<K: Sink>(out: K, text: &[u8], status: u8) -> Played<K>
    ensures { Says K.written (K.written out) text.now status result.out result.status }
{
    let mut out = out;
    let status = said(&mut out, text, status);
    Played {
        status,
        out: Some(out),
    }
}

// Plays the party of the file that these bytes are, where it is accepted. Else `sj check` says why.
fn seat_file<R: Threads + Sync, S: Source + Send + Drop, K: Sink + Send + Drop>(
    rt: &R,
    alloc: Global,
    word: &[u8],
    patience: u32,
    bytes: Vec<u8>,
    lines: LineReader<S>,
    out: K,
) -> Played<K>
    requires { length bytes.items ≤ file_limit }
    ensures { PlaysText K.written bytes.items word.now (K.written out) result }
{
    let mut out = out;
    let accepted = match accepted(alloc, &bytes) {
        Ok(Some(accepted)) => accepted,
        Ok(None) => {
            let status = checked(rt, alloc, bytes, &mut out);
            return Played {
                status,
                out: Some(out),
            };
        }
        Err(NoMemory) => return lost(NO_MEMORY),
    };
    let Some(party) = party_named(accepted.file(), word) else {
        let status = said_no_party(alloc, word, &mut out);
        return Played {
            status,
            out: Some(out),
        };
    };
    if write_all_of(&mut out, b"go\n").is_err() {
        return lost(WRITE_FAULT);
    }
    play_lines(rt, alloc, &accepted, party, patience, lines, out)
}
