//! What waits in the outboxes, pushed as far as the lanes take it.
ghost use Rattle.std.specs.Prelude.{◌≡◌, ◌<◌, IsFalse, IsTrue, None, length};
ghost use Rattle.sj_node.specs.Outs.{waiting_in};
ghost use Rattle.sj_node.specs.Reading.{outs_of};
ghost use Rattle.sj_work.specs.Answers.{push_answer};
ghost use Rattle.sj_work.specs.Turns.{IsGoing, Tried, Turns};
ghost use Rattle.sj_work.specs.Views.{looks_of, node_of, stop_of};
ghost use Rattle.sj_work.specs.Went.{HasNoEvent, OutVain};

use crate::acts::finished;
use crate::worker::{Outcome, Worker};
use sj_lane::{InLane, OutLane, PushRefusal};

// What a worker answers to a refused push. A full lane is no reason to stop.
fn refused(refusal: PushRefusal) -> Option<Outcome>
    ensures { result ≡ push_answer refusal }
{
    match refusal {
        PushRefusal::Full => None,
        PushRefusal::Fault => Some(Outcome::Fault),
        PushRefusal::NoMemory => Some(Outcome::NoMemory),
    }
}

// One push to that party. Answers whether the lane took a frame, and more may be pushed.
fn push_one<O: OutLane, I: InLane>(worker: &mut Worker<O, I>, to: u16) -> bool
    requires { IsGoing worker.old }
    ensures turns { Turns O.OutLane I.InLane worker.old worker.new }
    ensures rests { HasNoEvent (node_of worker.old) (node_of worker.new) }
    ensures fewer { IsTrue result → length (waiting_in (outs_of (node_of worker.new)) to)
        < length (waiting_in (outs_of (node_of worker.old)) to) }
    ensures goes_on { IsTrue result → stop_of worker.new ≡ None }
    ensures tried { IsFalse result → stop_of worker.new ≡ None →
        Tried O.vain to worker.old worker.new }
    ensures looks { looks_of worker.new ≡ looks_of worker.old }
{
    if worker.node.nothing_waits(to) {
        return false;
    }
    if usize::from(to) >= worker.lanes.outs.len() {
        return false;
    }
    let Some(frame) = worker.node.take_out(to) else {
        unreachable!()
    };
    match worker.lanes.outs[usize::from(to)].push(frame) {
        Ok(()) => {
            worker.answer = finished(&worker.node);
            worker.answer.is_none()
        }
        Err((frame, refusal)) => {
            worker.node.put_back(to, frame);
            worker.answer = refused(refusal);
            false
        }
    }
}

// Pushes to that party, as far as its lane takes.
fn push_to<O: OutLane, I: InLane>(worker: &mut Worker<O, I>, to: u16)
    requires { IsGoing worker.old }
    ensures turns { Turns O.OutLane I.InLane worker.old worker.new }
    ensures rests { HasNoEvent (node_of worker.old) (node_of worker.new) }
    ensures tried { stop_of worker.new ≡ None → Tried O.vain to worker.old worker.new }
    ensures looks { looks_of worker.new ≡ looks_of worker.old }
{
    while push_one(worker, to) {}
}

/// Pushes to each party of the file for which something may wait, as far as the lanes take.
pub(crate) fn push_all<O: OutLane, I: InLane>(worker: &mut Worker<O, I>)
    requires { IsGoing worker.old }
    ensures turns { Turns O.OutLane I.InLane worker.old worker.new }
    ensures rests { HasNoEvent (node_of worker.old) (node_of worker.new) }
    ensures tried { stop_of worker.new ≡ None → OutVain O.vain 1 worker.old worker.new }
    ensures looks { looks_of worker.new ≡ looks_of worker.old }
{
    for to in 0..worker.node.targets() {
        push_to(worker, to);
        if worker.answer.is_some() {
            return;
        }
    }
}
