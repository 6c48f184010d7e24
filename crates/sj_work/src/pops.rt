//! Pops, and their deliveries.
ghost use Rattle.std.specs.Prelude.{◌≡◌, ◌<◌, IsFalse, IsSome, IsTrue, None, Some};
ghost use Rattle.sj_lane.specs.Told.{told_frame};
ghost use Rattle.sj_node.specs.Node.{clock_of};
ghost use Rattle.sj_node.specs.Reading.{IsFinished, parties_of};
ghost use Rattle.sj_work.specs.Answers.{TakesFrame, delivery_answer};
ghost use Rattle.sj_work.specs.Counts.{OnLane, RoseBy};
ghost use Rattle.sj_work.specs.Pieces.{Pieces};
ghost use Rattle.sj_work.specs.Turns.{IsGoing, Turns};
ghost use Rattle.sj_work.specs.Views.{in_of, looks_of, node_of, stop_of};
ghost use Rattle.sj_work.specs.Went.{InVain};
ghost use Rattle.sj_rules.specs.Limits.{clock_end};

use crate::acts::{finished, show};
use crate::worker::{AT_ONCE, Gate, Outcome, Stop, Worker};
use sj_end::{CLOCK_END, Entry, Event, Frame, Line, note_of};
use sj_lane::{InLane, OutLane, PopRefusal};
use sj_node::{DeliverRefusal, Node};

// The answer to a frame that the node refused.
fn refused(node: &Node, from: u16, frame: &Frame, refusal: DeliverRefusal) -> Outcome
    requires { clock_of node.now < clock_end }
    ensures { result ≡ delivery_answer node.now from (told_frame frame.now) refusal }
{
    match refusal {
        DeliverRefusal::NoMemory => Outcome::NoMemory,
        DeliverRefusal::Unfit => Outcome::Unfit(Line {
            party: node.party(),
            entry: Entry {
                clock: node.clock().max(frame.clock.min(CLOCK_END)) + 1,
                event: Event::Deliver(from),
                note: note_of(&frame.body),
            },
        }),
    }
}

// One delivery. Answers why the worker stops, if it does.
fn deliver<G: Gate>(node: &mut Node, from: u16, frame: Frame, gate: &G) -> Option<Outcome>
    requires { clock_of node.old < clock_end }
    ensures { TakesFrame from frame node.old node.new result }
{
    match node.deliver(from, frame) {
        Ok(()) => {
            show(node, gate);
            None
        }
        Err((frame, refusal)) => Some(refused(node, from, &frame, refusal)),
    }
}

/// One pop, and its delivery, whether the node is finished or not. Answers whether a frame came.
pub(crate) fn look<O: OutLane, I: InLane, G: Gate>(
    worker: &mut Worker<O, I>,
    from: u16,
    gate: &G,
) -> bool
    requires stop { stop_of worker.old ≡ None }
    requires party { from < parties_of (node_of worker.old) }
    ensures pieces { Pieces O.OutLane I.InLane worker.old worker.new }
    ensures other { stop_of worker.new ≡ Some Stop.Finished → ⊥ }
    ensures before { IsSome (stop_of worker.new) →
        IsFinished (node_of worker.new) → IsFinished (node_of worker.old) }
    ensures event { IsTrue result → stop_of worker.new ≡ None →
        clock_of (node_of worker.old) < clock_of (node_of worker.new) }
    ensures rests { IsFalse result → node_of worker.new ≡ node_of worker.old }
    ensures vain { IsFalse result → stop_of worker.new ≡ None →
        OnLane I.vain (RoseBy 1) (in_of worker.old from) (in_of worker.new from) }
    ensures looks { looks_of worker.new ≡ looks_of worker.old }
{
    if worker.node.clock() >= CLOCK_END {
        worker.answer = Some(Outcome::ClockEnd);
        return false;
    }
    if usize::from(from) >= worker.lanes.ins.len() {
        return false;
    }
    let lane = &mut worker.lanes.ins[usize::from(from)];
    match lane.pop() {
        Ok(None) => false,
        Ok(Some(frame)) => {
            worker.answer = deliver(&mut worker.node, from, frame, gate);
            true
        }
        Err(PopRefusal::Fault) => {
            worker.answer = Some(Outcome::Fault);
            false
        }
        Err(PopRefusal::NoMemory) => {
            worker.answer = Some(Outcome::NoMemory);
            false
        }
    }
}

// The same of a worker that goes on, which stops where its node is finished then.
fn look_one<O: OutLane, I: InLane, G: Gate>(worker: &mut Worker<O, I>, from: u16, gate: &G) -> bool
    requires goes { IsGoing worker.old }
    requires party { from < parties_of (node_of worker.old) }
    ensures turns { Turns O.OutLane I.InLane worker.old worker.new }
    ensures event { IsTrue result → stop_of worker.new ≡ None →
        clock_of (node_of worker.old) < clock_of (node_of worker.new) }
    ensures rests { IsFalse result → node_of worker.new ≡ node_of worker.old }
    ensures vain { IsFalse result → stop_of worker.new ≡ None →
        OnLane I.vain (RoseBy 1) (in_of worker.old from) (in_of worker.new from) }
    ensures looks { looks_of worker.new ≡ looks_of worker.old }
{
    if !look(worker, from, gate) {
        return false;
    }
    if worker.answer.is_some() {
        return true;
    }
    worker.answer = finished(&worker.node);
    true
}

// Pops from that party as long as frames come, as many as one turn has at most, and their
// deliveries. Answers whether a frame came.
fn look_on<O: OutLane, I: InLane, G: Gate>(worker: &mut Worker<O, I>, from: u16, gate: &G) -> bool
    requires goes { IsGoing worker.old }
    requires party { from < parties_of (node_of worker.old) }
    ensures turns { Turns O.OutLane I.InLane worker.old worker.new }
    ensures event { IsTrue result → stop_of worker.new ≡ None →
        clock_of (node_of worker.old) < clock_of (node_of worker.new) }
    ensures rests { IsFalse result → node_of worker.new ≡ node_of worker.old }
    ensures vain { IsFalse result → stop_of worker.new ≡ None →
        OnLane I.vain (RoseBy 1) (in_of worker.old from) (in_of worker.new from) }
    ensures looks { looks_of worker.new ≡ looks_of worker.old }
{
    if !look_one(worker, from, gate) {
        return false;
    }
    for _ in 1..AT_ONCE {
        if worker.answer.is_some() {
            return true;
        }
        if !look_one(worker, from, gate) {
            return true;
        }
    }
    true
}

/// Pops from each party of the file, in order. Answers whether a frame came.
pub(crate) fn look_all<O: OutLane, I: InLane, G: Gate>(worker: &mut Worker<O, I>, gate: &G) -> bool
    requires { IsGoing worker.old }
    ensures turns { Turns O.OutLane I.InLane worker.old worker.new }
    ensures event { IsTrue result → stop_of worker.new ≡ None →
        clock_of (node_of worker.old) < clock_of (node_of worker.new) }
    ensures rests { IsFalse result → node_of worker.new ≡ node_of worker.old }
    ensures vain { IsFalse result → stop_of worker.new ≡ None →
        InVain I.vain 1 worker.old worker.new }
    ensures looks { looks_of worker.new ≡ looks_of worker.old }
{
    let mut came = false;
    for from in 0..worker.node.parties() {
        came |= look_on(worker, from, gate);
        if worker.answer.is_some() {
            return came;
        }
    }
    came
}
