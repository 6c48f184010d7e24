//! Acts, and what follows each event.
ghost use Rattle.std.specs.Prelude.{◌≡◌, ◌<◌, IsFalse, IsTrue, None, Some, option_map};
ghost use Rattle.sj_node.specs.Node.{clock_of, due_of};
ghost use Rattle.sj_node.specs.Node as nodes;
ghost use Rattle.sj_work.specs.Answers.{SaysHalt, SeesFinished};
ghost use Rattle.sj_work.specs.Causes.{own_line};
ghost use Rattle.sj_work.specs.Turns.{IsGoing, IsHalted, Turns};
ghost use Rattle.sj_work.specs.Views.{looks_of, node_of, stop_of};
ghost use Rattle.sj_work.specs.Went.{HasNoEvent};
ghost use Rattle.sj_rules.specs.Limits.{clock_end};

use crate::worker::{AT_ONCE, Gate, Outcome, Worker};
use sj_end::{CLOCK_END, Line};
use sj_lane::{InLane, OutLane};
use sj_node::{Halt, Node};

/// Shows the last event.
pub(crate) fn show<G: Gate>(node: &Node, gate: &G) {
    if let Some(entry) = node.log().last() {
        gate.pass(node.party(), entry);
    }
}

/// What a worker answers whose node is finished.
pub(crate) fn finished(node: &Node) -> Option<Outcome>
    ensures { SeesFinished node.now result }
{
    if node.finished() {
        Some(Outcome::Finished)
    } else {
        None
    }
}

// The line that an act would have made which the rules don't have.
fn due_line(node: &Node) -> Line
    requires clock { clock_of node.now < clock_end }
    requires goes { nodes.node_halt node.now ≡ None }
    ensures { Some result ≡ option_map (own_line node.now) (due_of node.now) }
{
    match node.due() {
        Some(entry) => Line {
            party: node.party(),
            entry,
        },
        None => unreachable!(),
    }
}

// What a worker answers whose node refused an act. A party that is halted is no reason to stop.
fn refused(node: &Node, halt: Halt) -> Option<Outcome>
    requires clock { clock_of node.now < clock_end }
    requires goes { halt ≡ Halt.Unfit → nodes.node_halt node.now ≡ None }
    ensures { SaysHalt node.now halt result }
{
    match halt {
        Halt::Waits | Halt::Ended | Halt::AtLimit => None,
        Halt::NoMemory => Some(Outcome::NoMemory),
        Halt::Unfit => Some(Outcome::Unfit(due_line(node))),
    }
}

// One act, where the party can act. Answers whether there was one.
fn act<O: OutLane, I: InLane, G: Gate>(worker: &mut Worker<O, I>, gate: &G) -> bool
    requires { IsGoing worker.old }
    ensures turns { Turns O.OutLane I.InLane worker.old worker.new }
    ensures event { IsTrue result → clock_of (node_of worker.old) < clock_of (node_of worker.new) }
    ensures rests { IsFalse result → HasNoEvent (node_of worker.old) (node_of worker.new) }
    ensures halted { IsFalse result → stop_of worker.new ≡ None →
        IsHalted (nodes.node_halt (node_of worker.new)) }
    ensures looks { looks_of worker.new ≡ looks_of worker.old }
{
    if worker.node.clock() >= CLOCK_END {
        worker.answer = Some(Outcome::ClockEnd);
        return false;
    }
    match worker.node.act() {
        Ok(()) => {
            show(&worker.node, gate);
            worker.answer = finished(&worker.node);
            true
        }
        Err(halt) => {
            worker.answer = refused(&worker.node, halt);
            false
        }
    }
}

/// Acts until the party can't, as many as one turn has at most. Answers whether there was one.
pub(crate) fn act_on<O: OutLane, I: InLane, G: Gate>(worker: &mut Worker<O, I>, gate: &G) -> bool
    requires { IsGoing worker.old }
    ensures turns { Turns O.OutLane I.InLane worker.old worker.new }
    ensures event { IsTrue result → stop_of worker.new ≡ None →
        clock_of (node_of worker.old) < clock_of (node_of worker.new) }
    ensures rests { IsFalse result → HasNoEvent (node_of worker.old) (node_of worker.new) }
    ensures halted { IsFalse result → stop_of worker.new ≡ None →
        IsHalted (nodes.node_halt (node_of worker.new)) }
    ensures looks { looks_of worker.new ≡ looks_of worker.old }
{
    if !act(worker, gate) {
        return false;
    }
    for _ in 1..AT_ONCE {
        if worker.answer.is_some() {
            return true;
        }
        if !act(worker, gate) {
            return true;
        }
    }
    true
}
