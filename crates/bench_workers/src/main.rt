//! `bench_workers`: reads a file on standard input, and runs its parties on as many workers as its
//! first word says. Where that is no number, each has a thread of its own. It prints how many
//! events they had, how many there are after the drain, and the rounds. `bench/workers` calls it.
#![tactic(auto)]

ghost use Rattle.std.specs.Prelude.{◌≤◌, length};
ghost use Rattle.sj_lang.specs.Limits.{file_limit};

use sj_base::{ReadSource, read_all};
use sj_check::{Accepted, check};
use sj_end::Entry;
use sj_lane::RingLinks;
use sj_party::parse_file;
use sj_run::run_parties;
use sj_work::Gate;
use std::alloc::Global;
use std::env;
use std::process::ExitCode;
use std::rt::Env;
use std::sync::atomic::{AtomicU64, Ordering};
use std::thread::Threads;

/// The party that had the last event, and how often that is a lower one than the one before. On one
/// worker, which works the parties off in order, it is once for each round after the first with an
/// event.
#[derive(Drop)]
struct Turns {
    last: AtomicU64,
    back: AtomicU64,
}

impl Gate for Turns {
    fn pass(&self, party: u16, _entry: &Entry) {
        let party = u64::from(party);
        if self.last.swap(party, Ordering::SeqCst) > party {
            self.back.fetch_add(1, Ordering::SeqCst);
        }
    }
}

// How many events the parties had, how many there are after the drain, and how often the gate saw an
// earlier party after a later one.
fn events_on<R: Threads + Sync>(
    rt: &R,
    alloc: Global,
    accepted: &Accepted,
    workers: Option<u16>,
) -> Option<(usize, usize, u64)> {
    let gate = Turns {
        last: AtomicU64::new(0),
        back: AtomicU64::new(0),
    };
    let mut links = RingLinks::new();
    let Ok(mut world) = run_parties(rt, alloc, accepted, workers, 1_000, &mut links, &gate) else {
        return None;
    };
    let own = world.history().len();
    let Ok(()) = world.drain() else {
        return None;
    };
    Some((own, world.history().len(), gate.back.load(Ordering::SeqCst)))
}

// The accepted file that the bytes are.
fn accepted_in(alloc: Global, bytes: &[u8]) -> Option<Accepted>
    requires { length bytes.now ≤ file_limit }
{
    let Ok(file) = parse_file(alloc, bytes) else {
        return None;
    };
    match check(alloc, file) {
        Ok(accepted) => Some(accepted),
        Err(_) => None,
    }
}

// The number that is the first word.
fn workers_of<E: Env + AllocGlobal>(caller: &E) -> Option<u16> {
    let Ok(args) = env::args(caller) else {
        return None;
    };
    args.skip(1).next()?.parse::<u16>().ok()
}

fn main(rt: HostRuntime) -> ExitCode {
    let mut src = ReadSource::new(rt.stdin());
    let Ok(bytes) = read_all(rt.alloc(), &mut src, 65_536) else {
        return ExitCode::FAILURE;
    };
    let Some(accepted) = accepted_in(rt.alloc(), &bytes) else {
        return ExitCode::FAILURE;
    };
    let Some((own, all, back)) = events_on(&rt, rt.alloc(), &accepted, workers_of(&rt)) else {
        return ExitCode::FAILURE;
    };
    match println!(rt; "{own} {all} {back}") {
        Ok(()) => ExitCode::SUCCESS,
        Err(_) => ExitCode::FAILURE,
    }
}
