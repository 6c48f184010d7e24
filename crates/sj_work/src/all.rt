//! All workers at once.
ghost use Rattle.std.specs.Prelude.{◌≡◌, ◌<◌, ℕ, length, slice_get, slice_index_or, Some};
ghost use Rattle.sj_work.specs.declared.worker.Worker.{Worker};
ghost use Rattle.sj_work.specs.Worked.{Worked};

use crate::turns::work;
use crate::worker::{Gate, Worker};
use sj_lane::{InLane, OutLane};
use sj_node::node_crosses;
use std::thread::{self, Threads};

/// Every worker at once, each in a task of its own.
pub fn work_all<R: Threads + Sync, O: OutLane, I: InLane, G: Gate>(
    rt: &R,
    workers: &mut [Worker<O, I>],
    looks: u32,
    gate: &G,
)
    ensures length { length workers.new ≡ length workers.old }
    ensures each { (i : ℕ) (old new : _) → slice_get workers.old i ≡ Some old →
        slice_get workers.new i ≡ Some new → Worked O.OutLane I.InLane looks old new }
{
    work_each(rt, workers, looks, gate);
}

fn work_each<R: Threads + Sync, O: OutLane, I: InLane, G: Gate>(
    rt: &R,
    workers: &mut [Worker<O, I>],
    looks: u32,
    gate: &G,
)
    ensures { (i : ℕ) (d : _) → i < length workers.old →
        Worked O.OutLane I.InLane looks (slice_index_or workers.old i d)
        (slice_index_or workers.new i d) }
{
    node_crosses();
    let threads = workers.len().max(1);
    thread::for_each_mut(rt, workers, threads, &|_, worker| run(worker, looks, gate));
}

fn run<O: OutLane, I: InLane, G: Gate>(worker: &mut Worker<O, I>, looks: u32, gate: &G)
    ensures { Worked O.OutLane I.InLane looks worker.old worker.new }
{
    let _ = work(worker, looks, gate);
}
