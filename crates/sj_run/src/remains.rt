//! What workers leave: their lanes and their logs.
ghost use Rattle.std.specs.Prelude.{◌≡◌, IfOk, map};
ghost use Rattle.sj_run.specs.Handed.{AreLogless};
ghost use Rattle.sj_run.specs.Workers.{AreLogs};
ghost use Rattle.sj_work.specs.Views.{lanes_of};

use sj_base::NoMemory;
use sj_end::Entry;
use sj_lane::{InLane, Lanes, OutLane};
use sj_node::Node;
use sj_work::Worker;
use std::alloc::Global;

/// The lanes, the nodes and the logs of workers, in order.
#[derive(Drop)]
pub(crate) struct Remains<O, I> {
    pub lanes: Vec<Lanes<O, I>>,
    pub nodes: Vec<Node>,
    pub logs: Vec<Vec<Entry>>,
}

/// The workers' lanes, their nodes without their logs, and their logs.
pub(crate) fn take_apart<O: OutLane, I: InLane>(
    alloc: Global,
    workers: Vec<Worker<O, I>>,
) -> Result<Remains<O, I>, NoMemory>
    ensures lanes { IfOk result (λ r. r.lanes.items ≡ map lanes_of workers.items) }
    ensures nodes { IfOk result (λ r. AreLogless workers.items r.nodes.items) }
    ensures logs { IfOk result (λ r. AreLogs workers.items r.logs.items) }
{
    let mut lanes = Vec::new(alloc);
    let mut nodes = Vec::new(alloc);
    let mut logs = Vec::new(alloc);
    for worker in workers {
        let (own, node, log) = worker.into_parts();
        lanes.push(own)?;
        nodes.push(node)?;
        logs.push(log)?;
    }
    Ok(Remains { lanes, nodes, logs })
}
