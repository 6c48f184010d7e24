//! The event of an entry, done again.
ghost use Rattle.std.specs.Prelude.{IfErr, OnOk};
ghost use Rattle.sj_remote_run.specs.Again.{IsRedone};
ghost use Rattle.sj_remote_run.specs.Asked.{IsInside};

use crate::PlayRefusal;
use sj_end::{CLOCK_END, Entry, Event};
use sj_engine::{ByteIn, RedoRefusal, redo_act, redo_delivery};
use sj_lane::{InLane, PopRefusal};
use sj_node::Node;

/// What an entry that isn't done again means.
fn redo_means(refusal: RedoRefusal) -> PlayRefusal
    ensures { IsInside result }
{
    match refusal {
        RedoRefusal::Misfit => PlayRefusal::LogFault,
        RedoRefusal::NoMemory => PlayRefusal::NoMemory,
    }
}

/// Does the event of an entry again. A frame that it takes comes from its lane.
pub(crate) fn redo(node: &mut Node, ins: &mut [ByteIn], entry: &Entry) -> Result<(), PlayRefusal>
    ensures redone { OnOk result (IsRedone node.old node.new entry.now) }
    ensures refused { IfErr result IsInside }
{
    if node.clock() >= CLOCK_END {
        return Err(PlayRefusal::LogFault);
    }
    let done = match entry.event {
        Event::Act => redo_act(node, entry),
        Event::Deliver(from) => {
            if usize::from(from) >= ins.len() {
                return Err(PlayRefusal::LogFault);
            }
            match ins[usize::from(from)].pop() {
                Ok(Some(frame)) => redo_delivery(node, from, frame, entry),
                Ok(None) => return Err(PlayRefusal::LogFault),
                Err(PopRefusal::Fault) => return Err(PlayRefusal::NoFrame),
                Err(PopRefusal::NoMemory) => return Err(PlayRefusal::NoMemory),
            }
        }
    };
    match done {
        Ok(()) => Ok(()),
        Err(e) => Err(redo_means(e)),
    }
}
