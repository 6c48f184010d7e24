//! What waits in lanes in memory, moved to the other side.
ghost use Rattle.std.specs.Prelude.{ℕ, ◌<◌, length, OnErr, OnOk};
ghost use Rattle.sj_lane.specs.Square.{AllJoined, IsSquare};
ghost use Rattle.sj_lane.specs.Mem.{IsCarried, in_waits, out_waits};
ghost use Rattle.sj_lane.specs.MemCarry.{AreMoved, AreMovedUpTo, IsStill, KeptIn, KeptOut, OneMoved, Passes, LinkRests, RowMoved, SameMem};

use crate::lane::Lanes;
use crate::mem::{MemIn, MemOut};
use sj_base::NoMemory;
use std::collections::VecDeque;
use std::mem;

/// Moves what waits in the one lane to the other. Where memory is short nothing moves.
fn carry_link(out: &mut MemOut, lane: &mut MemIn) -> Result<(), NoMemory>
    requires { IsCarried out.old lane.old }
    ensures joined { IsCarried out.new lane.new }
    ensures out { KeptOut out.old out.new }
    ensures lane { KeptIn lane.old lane.new }
    ensures moved { OnOk result (Passes (out_waits out.old) (in_waits lane.old) (out_waits out.new) (in_waits lane.new)) }
    ensures still { OnErr result (LinkRests (out_waits out.old) (in_waits lane.old) (out_waits out.new) (in_waits lane.new)) }
{
    if lane.waiting.append(&mut out.waiting).is_err() {
        return Err(NoMemory);
    }
    Ok(())
}

/// The same of the link from one party to another, where each has lanes to and from all.
fn carry_between(lanes: &mut [Lanes<MemOut, MemIn>], from: usize, to: usize) -> Result<(), NoMemory>
    requires from { from < length lanes.old }
    requires to { to < length lanes.old }
    requires square { IsSquare lanes.old }
    requires joined { AllJoined IsCarried lanes.old }
    ensures square { IsSquare lanes.new }
    ensures joined { AllJoined IsCarried lanes.new }
    ensures lists { SameMem lanes.old lanes.new }
    ensures moved { OnOk result (OneMoved from to lanes.old lanes.new) }
    ensures still { OnErr result ((p q : ℕ) → IsStill lanes.old lanes.new p q) }
{
    let alloc = *lanes[to].ins.allocator();
    let none = MemIn {
        popped: Vec::new(alloc),
        waiting: VecDeque::new(alloc),
        vain: 0,
    };
    let mut lane = mem::replace(&mut lanes[to].ins[from], none);
    let carried = carry_link(&mut lanes[from].outs[to], &mut lane);
    lanes[to].ins[from] = lane;
    carried
}

/// The same of all links, as far as there is memory.
pub(crate) fn carry_all(lanes: &mut [Lanes<MemOut, MemIn>]) -> Result<(), NoMemory>
    requires square { IsSquare lanes.old }
    requires joined { AllJoined IsCarried lanes.old }
    ensures square { IsSquare lanes.new }
    ensures joined { AllJoined IsCarried lanes.new }
    ensures lists { SameMem lanes.old lanes.new }
    ensures moved { OnOk result (AreMoved lanes.old lanes.new) }
    ensures short { OnErr result ((p q : ℕ) × AreMovedUpTo p q lanes.old lanes.new) }
{
    for from in 0..lanes.len() {
        if let Err(short) = carry_from(lanes, from) {
            return Err(short);
        }
    }
    Ok(())
}

/// The same of the links from one party.
fn carry_from(lanes: &mut [Lanes<MemOut, MemIn>], from: usize) -> Result<(), NoMemory>
    requires from { from < length lanes.old }
    requires square { IsSquare lanes.old }
    requires joined { AllJoined IsCarried lanes.old }
    ensures square { IsSquare lanes.new }
    ensures joined { AllJoined IsCarried lanes.new }
    ensures lists { SameMem lanes.old lanes.new }
    ensures moved { OnOk result (RowMoved from (length lanes.old) lanes.old lanes.new) }
    ensures short { OnErr result ((q : ℕ) × RowMoved from q lanes.old lanes.new) }
{
    for to in 0..lanes.len() {
        if let Err(short) = carry_between(lanes, from, to) {
            return Err(short);
        }
    }
    Ok(())
}
