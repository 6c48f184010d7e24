//! An event of the party's stream, done again.
#![tactic(auto, using(crate::proofs::StepsLemmas::no_step, crate::proofs::StepsLemmas::one_step, crate::proofs::StepsLemmas::steps_then))]

ghost use Rattle.std.specs.Prelude.{◌≡◌, ◌∷◌, [], IfOk, OnOk};
ghost use Rattle.sj_end.specs.Lines.{entry_at};
ghost use Rattle.sj_end.specs.Views.{frame_at};
ghost use Rattle.sj_node.specs.Node.{log_of};
ghost use Rattle.sj_remote_seat.specs.Steps.{Steps};
ghost use Rattle.sj_remote_seat.specs.Turns.{IsDelivered, Sat};
ghost use Rattle.sj_seat.specs.Views.{node_of};

use crate::SeatPlayRefusal;
use crate::acts::{ask_for, is_only};
use crate::asking::Asking;
use crate::code::Code;
use crate::seat::Seat;
use sj_end::{CLOCK_END, Entry, Event, Frame};
use sj_engine::{ByteIn, ByteOut};
use sj_lane::{InLane, Lanes, PopRefusal};
use sj_node::{DeliverRefusal, Node};
use sj_remote_run::{PlayRefusal, push_all};
use sj_work::Worker;
use std::alloc::Global;

/// The next frame that came from that party.
fn frame_from(ins: &mut [ByteIn], from: u16) -> Result<Frame, PlayRefusal> {
    if usize::from(from) >= ins.len() {
        return Err(PlayRefusal::LogFault);
    }
    match ins[usize::from(from)].pop() {
        Ok(Some(frame)) => Ok(frame),
        Ok(None) => Err(PlayRefusal::LogFault),
        Err(PopRefusal::Fault) => Err(PlayRefusal::NoFrame),
        Err(PopRefusal::NoMemory) => Err(PlayRefusal::NoMemory),
    }
}

/// Delivers the frame. The entry has to be all that the node notes.
fn deliver(node: &mut Node, from: u16, frame: Frame, entry: &Entry) -> Result<(), PlayRefusal>
    ensures delivered { OnOk result (IsDelivered from (frame_at frame) node.old node.new) }
    ensures only { OnOk result (log_of node.new ≡ entry.now ∷ []) }
{
    if node.clock() >= CLOCK_END {
        return Err(PlayRefusal::LogFault);
    }
    match node.deliver(from, frame) {
        Ok(()) if is_only(node, entry) => Ok(()),
        Ok(()) | Err((_, DeliverRefusal::Unfit)) => Err(PlayRefusal::LogFault),
        Err((_, DeliverRefusal::NoMemory)) => Err(PlayRefusal::NoMemory),
    }
}

/// Lanes to nobody and from nobody.
fn no_lanes(alloc: Global) -> Lanes<ByteOut, ByteIn>
    ensures { result.outs.items ≡ [] }
{
    Lanes {
        outs: Vec::new(alloc),
        ins: Vec::new(alloc),
    }
}

/// Does again the act that the entry notes. Its party has no lanes meanwhile, so nothing comes.
fn act_again<'a, C: Code>(
    alloc: Global,
    seat: Seat<'a>,
    asking: &mut Asking,
    code: &mut C,
    entry: &Entry,
) -> Result<Seat<'a>, SeatPlayRefusal>
    requires { log_of (node_of seat) ≡ [] }
    ensures sat { IfOk result (λ new. Sat seat.entry new (entry_at entry.now ∷ [])) }
    ensures none { IfOk result (λ new. log_of (node_of new) ≡ []) }
    ensures steps { Steps C.Code.step code.old code.new }
{
    let (before, holdings) = seat.into_parts();
    let (mut lanes, node, _) = before.into_parts();
    let bare = Worker::new(node, no_lanes(alloc));
    let mut guest = holdings.with_worker(bare);
    ask_for(&mut guest, asking, code, entry)?;
    let (after, holdings) = guest.into_parts();
    let (_, mut node, _) = after.into_parts();
    push_all(alloc, &mut node, &mut lanes)?;
    let worker = Worker::new(node, lanes);
    Ok(holdings.with_worker(worker))
}

/// Does again the delivery that the entry notes. Its frame comes from its lane.
fn take_again<'a>(
    alloc: Global,
    seat: Seat<'a>,
    from: u16,
    entry: &Entry,
) -> Result<Seat<'a>, PlayRefusal>
    requires { log_of (node_of seat) ≡ [] }
    ensures sat { IfOk result (λ new. Sat seat.entry new (entry_at entry.now ∷ [])) }
    ensures none { IfOk result (λ new. log_of (node_of new) ≡ []) }
{
    let (worker, holdings) = seat.into_parts();
    let (mut lanes, mut node, _) = worker.into_parts();
    let frame = frame_from(&mut lanes.ins, from)?;
    deliver(&mut node, from, frame, entry)?;
    let _ = node.take_log();
    push_all(alloc, &mut node, &mut lanes)?;
    let worker = Worker::new(node, lanes);
    Ok(holdings.with_worker(worker))
}

/// Does again the event that the entry notes.
pub(crate) fn redo<'a, C: Code>(
    alloc: Global,
    seat: Seat<'a>,
    asking: &mut Asking,
    code: &mut C,
    entry: &Entry,
) -> Result<Seat<'a>, SeatPlayRefusal>
    requires { log_of (node_of seat) ≡ [] }
    ensures sat { IfOk result (λ new. Sat seat.entry new (entry_at entry.now ∷ [])) }
    ensures none { IfOk result (λ new. log_of (node_of new) ≡ []) }
    ensures steps { Steps C.Code.step code.old code.new }
{
    match entry.event {
        Event::Act => act_again(alloc, seat, asking, code, entry),
        Event::Deliver(from) => match take_again(alloc, seat, from, entry) {
            Ok(seat) => Ok(seat),
            Err(refusal) => Err(SeatPlayRefusal::from(refusal)),
        },
    }
}
