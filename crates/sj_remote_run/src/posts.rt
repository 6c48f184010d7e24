//! What waits at a node, pushed on its lanes.
ghost use Rattle.std.specs.Prelude.{◌≡◌, [], IfErr, OnOk};
ghost use Rattle.sj_node.specs.Reading.{TakesOut};
ghost use Rattle.sj_remote_run.specs.Asked.{IsInside};
ghost use Rattle.sj_remote_run.specs.Posts.{AreClear, GoesOut, GoesTo, waits_for};

use crate::PlayRefusal;
use crate::causes::spell_means;
use sj_engine::{ByteIn, ByteOut, carry_home};
use sj_lane::{Lanes, OutLane};
use sj_node::Node;
use std::alloc::Global;

/// Pushes what waits for a party on its lane.
fn push_out(node: &mut Node, to: u16, lane: &mut ByteOut) -> Result<(), PlayRefusal>
    ensures node { TakesOut node.old node.new }
    ensures goes { OnOk result (GoesTo to lane.old node.old lane.new node.new) }
    ensures none { OnOk result (waits_for node.new to ≡ []) }
    ensures refused { IfErr result IsInside }
{
    for _ in 0..u64::MAX {
        match node.take_out(to) {
            Some(frame) => {
                if lane.push(frame).is_err() {
                    return Err(PlayRefusal::NoMemory);
                }
            }
            None => return Ok(()),
        }
    }
    // No memory holds so many frames.
    Err(PlayRefusal::NoMemory)
}

/// Pushes all that waits. What the party sends to itself comes to where it takes it.
pub fn push_all(
    alloc: Global,
    node: &mut Node,
    lanes: &mut Lanes<ByteOut, ByteIn>,
) -> Result<(), PlayRefusal>
    ensures node { TakesOut node.old node.new }
    ensures out { OnOk result
        (GoesOut lanes.old.outs.items node.old lanes.new.outs.items node.new) }
    ensures refused { IfErr result IsInside }
{
    if lanes.outs.len() != usize::from(node.parties()) {
        return Err(PlayRefusal::LogFault);
    }
    for to in 0..node.targets() {
        push_out(node, to, &mut lanes.outs[usize::from(to)])?;
    }
    match carry_home(alloc, lanes, node.party()) {
        Ok(_) => Ok(()),
        Err(e) => Err(spell_means(e)),
    }
}

/// Forgets the frames of all lanes.
pub fn clear(outs: &mut [ByteOut])
    ensures clear { AreClear outs.new }
{
    for at in 0..outs.len() {
        outs[at].clear();
    }
}
