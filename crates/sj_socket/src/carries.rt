//! What waits in lanes, moved on.
ghost use Rattle.std.specs.Prelude.{◌≡◌, ◌<◌, ◌++◌, ℕ, length, slice_get, OnOk};
ghost use Rattle.sj_lane.specs.Rings.{Each2};
ghost use Rattle.sj_lane.specs.Square.{in_at, out_at};
ghost use Rattle.sj_socket.specs.Kept.{InKept, LanesKept, OutKept};
ghost use Rattle.sj_socket.specs.Own.{IsMoved, SameSent, WayIsMoved, list_in, list_out, own_all, own_came, own_sent};
ghost use Rattle.sj_socket.specs.Streams.{told};

use crate::in_lane::InWay;
use crate::out_lane::OutWay;
use crate::{TcpIn, TcpOut};
use sj_base::NoMemory;
use sj_lane::Lanes;

/// Moves what waits in a list of what a party sent to itself to its other end. Where memory is short
/// nothing moves.
fn carry_own(out: &mut TcpOut, lane: &mut TcpIn) -> Result<(), NoMemory>
    ensures out { OutKept told out.old out.new }
    ensures lane { InKept lane.old lane.new }
    ensures own { list_in lane.new.way ++ list_out out.new.way
        ≡ list_in lane.old.way ++ list_out out.old.way }
    ensures moved { OnOk result (WayIsMoved out.new.way lane.new.way) }
{
    if let (OutWay::Own(sent), InWay::Own(came)) = (&mut out.way, &mut lane.way) {
        came.append(sent)?;
    }
    Ok(())
}

/// Tries the streams to other parties.
fn carry_outs(outs: &mut Vec<TcpOut>)
    ensures kept { Each2 (OutKept told) outs.old.items outs.new.items }
    ensures lists { Each2 SameSent outs.old.items outs.new.items }
{
    for to in 0..outs.len() {
        outs[to].carry();
    }
}

/// The same of a party's lanes, with its list.
fn carry_from(own: &mut Lanes<TcpOut, TcpIn>, party: usize) -> Result<(), NoMemory>
    ensures kept { LanesKept own.old own.new }
    ensures own { own_all own.new party ≡ own_all own.old party }
    ensures moved { OnOk result
        (IsMoved (slice_get own.new.outs.items party) (slice_get own.new.ins.items party)) }
{
    carry_outs(&mut own.outs);
    if party < own.outs.len() && party < own.ins.len() {
        carry_own(&mut own.outs[party], &mut own.ins[party])?;
    }
    Ok(())
}

/// The same of all parties, as far as there is memory.
pub(crate) fn carry_all(lanes: &mut [Lanes<TcpOut, TcpIn>]) -> Result<(), NoMemory>
    ensures kept { Each2 LanesKept lanes.old lanes.new }
    ensures own { (p : ℕ) → own_came lanes.new p ++ own_sent lanes.new p
        ≡ own_came lanes.old p ++ own_sent lanes.old p }
    ensures moved { OnOk result ((p : ℕ) → p < length lanes.new →
        IsMoved (out_at lanes.new p p) (in_at lanes.new p p)) }
{
    for party in 0..lanes.len() {
        carry_from(&mut lanes[party], party)?;
    }
    Ok(())
}
