//! The turns of a worker, until there is a cause to stop.
ghost use Rattle.std.specs.Prelude.{◌≡◌, ◌<◌, None, Some, IsFalse, IsTrue};
ghost use Rattle.sj_node.specs.Node.{clock_of};
ghost use Rattle.sj_work.specs.Turns.{IsGoing, IsInVain, Turns};
ghost use Rattle.sj_work.specs.Views.{looks_of, node_of, stop_of};
ghost use Rattle.sj_work.specs.Worked.{Turned, Worked, kept_stop};

use crate::acts::{act_on, finished};
use crate::pops::look_all;
use crate::pushes::push_all;
use crate::worker::{Gate, Outcome, Stop, Worker};
use sj_end::CLOCK_END;
use sj_lane::{InLane, OutLane};

// One turn: pops from each origin, in order, with their deliveries; pushes as far as the lanes
// take; acts. Answers whether it had an event.
fn turn<O: OutLane, I: InLane, G: Gate>(worker: &mut Worker<O, I>, gate: &G) -> bool
    requires { IsGoing worker.old }
    ensures turns { Turns O.OutLane I.InLane worker.old worker.new }
    ensures event { IsTrue result → stop_of worker.new ≡ None →
        clock_of (node_of worker.old) < clock_of (node_of worker.new) }
    ensures vain { IsFalse result → stop_of worker.new ≡ None →
        IsInVain O.vain I.vain worker.old worker.new }
    ensures looks { looks_of worker.new ≡ looks_of worker.old }
{
    let came = look_all(worker, gate);
    if worker.answer.is_some() {
        return came;
    }
    push_all(worker);
    if worker.answer.is_some() {
        return came;
    }
    act_on(worker, gate) || came
}

// Turns until one has an event or the worker stops. Where turns have none the party stays idle, or
// at its limit. The worker stops so after as many turns as there are looks. With no looks an idle
// party's worker stops as idle without any turn.
fn until_event<O: OutLane, I: InLane, G: Gate>(worker: &mut Worker<O, I>, looks: u32, gate: &G)
    requires { IsGoing worker.old }
    ensures turned { Turned O.OutLane I.InLane looks worker.old worker.new }
    ensures event { stop_of worker.new ≡ None →
        clock_of (node_of worker.old) < clock_of (node_of worker.new) }
{
    worker.looks = 0;
    while worker.looks < looks || !worker.node.idle_now() {
        let event = turn(worker, gate);
        let stops = worker.answer.is_some();
        if event || stops {
            return;
        }
        worker.looks = worker.looks.saturating_add(1);
        if worker.looks >= looks && !worker.node.idle_now() {
            worker.answer = Some(Outcome::AtLimit);
            return;
        }
    }
    worker.answer = Some(Outcome::Idle);
}

// Turns until there is a cause to stop.
fn go<O: OutLane, I: InLane, G: Gate>(worker: &mut Worker<O, I>, looks: u32, gate: &G)
    requires { IsGoing worker.old }
    ensures turned { Turned O.OutLane I.InLane looks worker.old worker.new }
    ensures stops { stop_of worker.new ≡ None → ⊥ }
{
    while worker.node.clock() < CLOCK_END {
        until_event(worker, looks, gate);
        if worker.answer.is_some() {
            return;
        }
    }
    worker.answer = Some(Outcome::ClockEnd);
}

/// Turns until the worker stops. A worker that stopped out of memory, at a fault or at what doesn't
/// fit does nothing and answers it again, since a frame may be lost.
pub fn work<O: OutLane, I: InLane, G: Gate>(worker: &mut Worker<O, I>, looks: u32, gate: &G) -> Stop
    ensures worked { Worked O.OutLane I.InLane looks worker.old worker.new }
    ensures stop { stop_of worker.new ≡ Some result }
{
    if let Some(stop) = kept(worker.stop()) {
        return stop;
    }
    worker.looks = 0;
    worker.answer = finished(&worker.node);
    if worker.answer.is_none() {
        go(worker, looks, gate);
    }
    match worker.stop() {
        Some(stop) => stop,
        None => unreachable!(),
    }
}

/// The stop that stays, if any.
pub(crate) fn kept(stop: Option<Stop>) -> Option<Stop>
    ensures { result ≡ kept_stop stop }
{
    match stop {
        Some(Stop::NoMemory | Stop::Fault | Stop::Unfit) => stop,
        _ => None,
    }
}
