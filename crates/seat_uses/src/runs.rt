//! A file that is run with codes.

use sj_check::{Accepted, check};
use sj_lane::RingLinks;
use sj_party::parse_file;
use sj_proto::Tokens;
use sj_seat_run::{Play, SeatedRefusal, SeatedRun, run_seated, text_count};
use sj_work::NoGate;
use std::alloc::Global;
use std::thread::Threads;

/// How many turns in vain a call of a code waits before it is refused as waiting.
pub(crate) const LOOKS: u32 = 1_000;

/// Why a text isn't run.
#[derive(Clone, Copy, Debug)]
pub enum RunRefusal {
    /// It is no accepted file.
    File,
    Run(SeatedRefusal),
}

/// The accepted file that the text is.
pub(crate) fn accepted_in(alloc: Global, text: &[u8]) -> Option<Accepted> {
    if text.len() > Tokens::MOST_BYTES {
        return None;
    }
    let Ok(file) = parse_file(alloc, text) else {
        return None;
    };
    match check(alloc, file) {
        Ok(accepted) => Some(accepted),
        Err(_) => None,
    }
}

/// A run of the file over rings, to where nobody can go on. Of each party `codes` has the code that
/// plays it, or None where it goes by the file. Codes name texts of the file alone.
pub fn run_codes<R: Threads + Sync, C: Play + Send + Drop>(
    rt: &R,
    alloc: Global,
    text: &[u8],
    codes: Vec<Option<C>>,
) -> Result<SeatedRun<C>, RunRefusal> {
    let Some(accepted) = accepted_in(alloc, text) else {
        return Err(RunRefusal::File);
    };
    let mut links = RingLinks::new();
    let texts = text_count(accepted.file());
    match run_seated(
        rt, alloc, &accepted, codes, texts, LOOKS, &mut links, &NoGate,
    ) {
        Ok(mut run) => match run.world.drain() {
            Ok(()) => Ok(run),
            Err(_) => Err(RunRefusal::Run(SeatedRefusal::NoMemory)),
        },
        Err(refusal) => Err(RunRefusal::Run(refusal)),
    }
}
