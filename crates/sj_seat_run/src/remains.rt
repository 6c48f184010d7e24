//! What is left of the parties of a run: their workers, their codes, their lanes and their logs.
ghost use Rattle.std.specs.Prelude.{◌≡◌, IfOk, is_some, map};
ghost use Rattle.sj_run.specs.Workers.{AreLogs};
ghost use Rattle.sj_seat_run.specs.Runners.{is_coded, lists_of, opened_at, worker_at};
ghost use Rattle.sj_work.specs.Views.{lanes_of};

use crate::runners::Runner;
use sj_base::NoMemory;
use sj_end::Entry;
use sj_lane::{InLane, Lanes, OutLane};
use sj_seat::OpenedSession;
use sj_work::Worker;
use std::alloc::Global;

/// The workers of the parties, the codes of those that have one, and the sessions that each opened.
#[derive(Drop)]
pub(crate) struct Parties<O, I, C> {
    pub workers: Vec<Worker<O, I>>,
    pub codes: Vec<Option<C>>,
    pub opened: Vec<Vec<OpenedSession>>,
}

/// The lanes and the logs of workers, in order.
#[derive(Drop)]
pub(crate) struct Remains<O, I> {
    pub lanes: Vec<Lanes<O, I>>,
    pub logs: Vec<Vec<Entry>>,
}

/// All stop running.
pub(crate) fn stand_up<O: OutLane, I: InLane, G, C: Drop>(
    alloc: Global,
    runners: Vec<Runner<'_, O, I, G, C>>,
) -> Result<Parties<O, I, C>, NoMemory>
    ensures workers { IfOk result (λ r. r.workers.items ≡ map worker_at runners.entry.items) }
    ensures codes { IfOk result (λ r. map is_some r.codes.items ≡ map is_coded runners.entry.items) }
    ensures opened { IfOk result (λ r. lists_of r.opened.items ≡ map opened_at runners.entry.items) }
{
    let mut workers = Vec::new(alloc);
    let mut codes = Vec::new(alloc);
    let mut opened = Vec::new(alloc);
    for runner in runners {
        let (worker, code, own) = runner.into_parts(alloc);
        workers.push(worker)?;
        codes.push(code)?;
        opened.push(own)?;
    }
    Ok(Parties {
        workers,
        codes,
        opened,
    })
}

/// The workers' lanes and logs.
pub(crate) fn take_apart<O: OutLane, I: InLane>(
    alloc: Global,
    workers: Vec<Worker<O, I>>,
) -> Result<Remains<O, I>, NoMemory>
    ensures lanes { IfOk result (λ r. r.lanes.items ≡ map lanes_of workers.items) }
    ensures logs { IfOk result (λ r. AreLogs workers.items r.logs.items) }
{
    let mut lanes = Vec::new(alloc);
    let mut logs = Vec::new(alloc);
    for worker in workers {
        let (own, _, log) = worker.into_parts();
        lanes.push(own)?;
        logs.push(log)?;
    }
    Ok(Remains { lanes, logs })
}

/// Of each party whether code plays it.
pub(crate) fn seats_of<C>(alloc: Global, codes: &[Option<C>]) -> Result<Vec<bool>, NoMemory>
    ensures { IfOk result (λ v. v.items ≡ map is_some codes.now) }
{
    let mut seats = Vec::new(alloc);
    for code in codes {
        seats.push(code.is_some())?;
    }
    Ok(seats)
}
