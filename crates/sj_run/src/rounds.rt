//! Workers on fewer threads than there are of them, in rounds.
ghost use Rattle.std.specs.Prelude.{◌<◌, ◌≤◌, IfOk, length};
ghost use Rattle.sj_steal.specs.Runs.{Each2};
ghost use Rattle.sj_work.specs.Worked.{Worked};

use crate::laws::calls_compose;
use sj_base::NoMemory;
use sj_lane::{InLane, OutLane};
use sj_node::node_crosses;
use sj_steal::call_each;
use sj_work::{Gate, Worker, work};
use std::alloc::Global;
use std::thread::Threads;

/// The most rounds of a run, the last one among them.
const MOST_ROUNDS: u32 = 1_000;

/// The most looks of a worker in all rounds but the last: who has nothing to do there comes again.
const FEW_LOOKS: u32 = 1;

// How many events the workers had.
fn events<O, I>(workers: &[Worker<O, I>]) -> usize {
    let mut events = 0usize;
    for worker in workers {
        events = events.saturating_add(worker.node().log().len());
    }
    events
}

// One call of `work`.
fn turns<O: OutLane, I: InLane, G: Gate>(worker: &mut Worker<O, I>, looks: u32, gate: &G)
    ensures { Worked O.OutLane I.InLane looks worker.old worker.new }
{
    let _ = work(worker, looks, gate);
}

// One call of `work` of each worker.
fn round<R: Threads + Sync, O: OutLane, I: InLane, G: Gate>(
    rt: &R,
    alloc: Global,
    workers: Vec<Worker<O, I>>,
    threads: u16,
    looks: u32,
    gate: &G,
) -> Result<Vec<Worker<O, I>>, NoMemory>
    requires some { 0 < threads }
    requires few { length workers.items ≤ 65536 }
    ensures { IfOk result (λ new. Each2 (Worked O.OutLane I.InLane looks) workers.items new.items) }
{
    node_crosses();
    let workers = call_each(
        rt,
        alloc,
        workers,
        threads,
        &|worker: &mut Worker<O, I>| turns(worker, looks, gate),
    )?;
    Ok(workers)
}

// The workers after rounds on so many threads, until one without an event, or the last but one.
// All their calls of `work` together are one call of it.
fn until_still<R: Threads + Sync, O: OutLane, I: InLane, G: Gate>(
    rt: &R,
    alloc: Global,
    workers: Vec<Worker<O, I>>,
    threads: u16,
    looks: u32,
    gate: &G,
) -> Result<Vec<Worker<O, I>>, NoMemory>
    requires some { 0 < threads }
    requires few { length workers.items ≤ 65536 }
    ensures { IfOk result (λ new. Each2 (Worked O.OutLane I.InLane looks) workers.items new.items) }
{
    calls_compose::<O, I>();
    let mut before = events(&workers);
    let mut workers = round(rt, alloc, workers, threads, looks, gate)?;
    for _ in 2..MOST_ROUNDS {
        let now = events(&workers);
        if now == before {
            return Ok(workers);
        }
        before = now;
        workers = round(rt, alloc, workers, threads, looks, gate)?;
    }
    Ok(workers)
}

/// The workers after rounds on so many threads, with few looks until one has no event, and then one
/// with all looks. All their calls of `work` together are one call of it with so many looks.
pub(crate) fn in_rounds<R: Threads + Sync, O: OutLane, I: InLane, G: Gate>(
    rt: &R,
    alloc: Global,
    workers: Vec<Worker<O, I>>,
    threads: u16,
    looks: u32,
    gate: &G,
) -> Result<Vec<Worker<O, I>>, NoMemory>
    requires some { 0 < threads }
    requires few { length workers.items ≤ 65536 }
    ensures { IfOk result (λ new. Each2 (Worked O.OutLane I.InLane looks) workers.items new.items) }
{
    calls_compose::<O, I>();
    let few = looks.min(FEW_LOOKS);
    let still = until_still(rt, alloc, workers, threads, few, gate)?;
    let workers = round(rt, alloc, still, threads, looks, gate)?;
    Ok(workers)
}
