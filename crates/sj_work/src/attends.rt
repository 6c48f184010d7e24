//! Rounds of a party that has nothing to do of its own: what came is taken, what waits is pushed.
ghost use Rattle.std.specs.Prelude.{◌≡◌, ◌<◌, None, Some};
ghost use Rattle.sj_node.specs.Node.{clock_of, wants_of};
ghost use Rattle.sj_node.specs.Reading.{parties_of};
ghost use Rattle.sj_semantics.specs.declared.Want.TheVariants as wants;
ghost use Rattle.sj_work.specs.Attended.{Attended, AttendedBy, MayGoOn};
ghost use Rattle.sj_work.specs.Counts.{OnLane, RoseBy};
ghost use Rattle.sj_work.specs.Pieces.{Pieces};
ghost use Rattle.sj_work.specs.Views.{in_of, node_of, stop_of};
ghost use Rattle.sj_work.specs.Went.{HasNoEvent, InVain};
ghost use Rattle.sj_work.specs.Worked.{kept_stop};

use crate::acts::finished;
use crate::pops::look;
use crate::pushes::push_all;
use crate::turns::kept;
use crate::worker::{AT_ONCE, Gate, Outcome, Stop, Worker};
use sj_lane::{InLane, OutLane};

// Takes from that party as long as frames come, as many as one round takes at most.
fn take_from<O: OutLane, I: InLane, G: Gate>(worker: &mut Worker<O, I>, from: u16, gate: &G)
    requires stop { stop_of worker.old ≡ None }
    requires party { from < parties_of (node_of worker.old) }
    ensures pieces { Pieces O.OutLane I.InLane worker.old worker.new }
    ensures other { stop_of worker.new ≡ Some Stop.Finished → ⊥ }
    ensures vain { stop_of worker.new ≡ None →
        clock_of (node_of worker.new) ≡ clock_of (node_of worker.old) →
        OnLane I.vain (RoseBy 1) (in_of worker.old from) (in_of worker.new from) }
{
    if !look(worker, from, gate) {
        return;
    }
    for _ in 1..AT_ONCE {
        if worker.answer.is_some() {
            return;
        }
        if !look(worker, from, gate) {
            return;
        }
    }
}

// Takes from each party of the file, in order.
fn take_all<O: OutLane, I: InLane, G: Gate>(worker: &mut Worker<O, I>, gate: &G)
    requires { stop_of worker.old ≡ None }
    ensures pieces { Pieces O.OutLane I.InLane worker.old worker.new }
    ensures other { stop_of worker.new ≡ Some Stop.Finished → ⊥ }
    ensures vain { stop_of worker.new ≡ None →
        clock_of (node_of worker.new) ≡ clock_of (node_of worker.old) →
        InVain I.vain 1 worker.old worker.new }
{
    for from in 0..worker.node.parties() {
        take_from(worker, from, gate);
        if worker.answer.is_some() {
            return;
        }
    }
}

// Pushes what waits, and stops: as finished where the node is so, else as idle, unless a lane
// refused.
fn push_on<O: OutLane, I: InLane>(worker: &mut Worker<O, I>)
    requires { stop_of worker.old ≡ None }
    ensures attended { Attended O.OutLane I.InLane worker.old worker.new }
    ensures rests { HasNoEvent (node_of worker.old) (node_of worker.new) }
    ensures stops { stop_of worker.new ≡ None → ⊥ }
{
    worker.answer = finished(&worker.node);
    if worker.answer.is_some() {
        return;
    }
    push_all(worker);
    if worker.answer.is_some() {
        return;
    }
    worker.answer = Some(Outcome::Idle);
}

// One round of a worker that hasn't stopped.
fn round<O: OutLane, I: InLane, G: Gate>(worker: &mut Worker<O, I>, gate: &G)
    requires { stop_of worker.old ≡ None }
    ensures attended { Attended O.OutLane I.InLane worker.old worker.new }
    ensures looked { MayGoOn (stop_of worker.new) →
        clock_of (node_of worker.new) ≡ clock_of (node_of worker.old) →
        InVain I.vain 1 worker.old worker.new }
    ensures stops { stop_of worker.new ≡ None → ⊥ }
{
    take_all(worker, gate);
    if worker.answer.is_some() {
        return;
    }
    push_on(worker);
}

/// One round of a party with nothing to do of its own: takes what came, whether its node is finished
/// or not, and pushes what waits. A worker that stopped out of memory, at a fault or at what doesn't
/// fit does nothing and answers it again.
pub fn attend<O: OutLane, I: InLane, G: Gate>(worker: &mut Worker<O, I>, gate: &G) -> Stop
    requires idle { wants_of (node_of worker.old) ≡ wants.Ended }
    ensures attended { AttendedBy O.OutLane I.InLane (kept_stop (stop_of worker.old))
        worker.old worker.new }
    ensures stop { stop_of worker.new ≡ Some result }

    // Where nothing came, each lane from a party was looked at in vain.
    ensures looked { MayGoOn (Some result) →
        clock_of (node_of worker.new) ≡ clock_of (node_of worker.old) →
        InVain I.vain 1 worker.old worker.new }
{
    if let Some(stop) = kept(worker.stop()) {
        return stop;
    }
    worker.answer = None;
    round(worker, gate);
    match worker.stop() {
        Some(stop) => stop,
        None => unreachable!(),
    }
}

/// Pushes what waits, for a party with nothing to do of its own. Stops that stay do so here, too.
pub fn push_out<O: OutLane, I: InLane>(worker: &mut Worker<O, I>) -> Stop
    requires idle { wants_of (node_of worker.old) ≡ wants.Ended }
    ensures attended { AttendedBy O.OutLane I.InLane (kept_stop (stop_of worker.old))
        worker.old worker.new }
    ensures rests { HasNoEvent (node_of worker.old) (node_of worker.new) }
    ensures stop { stop_of worker.new ≡ Some result }
{
    if let Some(stop) = kept(worker.stop()) {
        return stop;
    }
    worker.answer = None;
    push_on(worker);
    match worker.stop() {
        Some(stop) => stop,
        None => unreachable!(),
    }
}
