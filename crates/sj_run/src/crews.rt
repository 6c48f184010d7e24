//! All workers at work.
ghost use Rattle.std.specs.Prelude.{◌≤◌, IfOk, length};
ghost use Rattle.sj_steal.specs.Runs.{Each2};
ghost use Rattle.sj_work.specs.Worked.{Worked};

use crate::rounds::in_rounds;
use sj_base::NoMemory;
use sj_lane::{InLane, OutLane};
use sj_work::{Gate, Worker, work_all};
use std::alloc::Global;
use std::thread::Threads;

// Each worker after one call, on a thread of its own where one can be had.
fn at_once<R: Threads + Sync, O: OutLane, I: InLane, G: Gate>(
    rt: &R,
    workers: Vec<Worker<O, I>>,
    looks: u32,
    gate: &G,
) -> Vec<Worker<O, I>>
    ensures { Each2 (Worked O.OutLane I.InLane looks) workers.items result.items }
{
    let mut workers = workers;
    work_all(rt, &mut workers, looks, gate);
    workers
}

/// The workers after their work: on a pool of so many threads, in rounds, or, without a number,
/// each on a thread of its own.
pub(crate) fn work_off<R: Threads + Sync, O: OutLane, I: InLane, G: Gate>(
    rt: &R,
    alloc: Global,
    workers: Vec<Worker<O, I>>,
    threads: Option<u16>,
    looks: u32,
    gate: &G,
) -> Result<Vec<Worker<O, I>>, NoMemory>
    requires few { length workers.items ≤ 65536 }
    ensures { IfOk result (λ new. Each2 (Worked O.OutLane I.InLane looks) workers.items new.items) }
{
    match threads {
        None => Ok(at_once(rt, workers, looks, gate)),
        Some(threads) => in_rounds(rt, alloc, workers, threads.max(1), looks, gate),
    }
}
