//! New links for all ordered pairs.
ghost use Rattle.std.specs.Prelude.{◌≡◌, ◌≢◌, None, ◌+◌, ◌<◌, length, IfOk, OnOk};
ghost use Rattle.sj_socket.specs.Ins.{IsNewIn};
ghost use Rattle.sj_socket.specs.Joined.{IsJoined, IsRowLinked};
ghost use Rattle.sj_socket.specs.Outs.{IsNewOut, address_out};
ghost use Rattle.sj_socket.specs.Rows.{AreNewOuts, Grid, IsNewLink};

use crate::in_lane::{InWay, Reader, SocketIn};
use crate::out_lane::{OutWay, SocketOut, Writer};
use crate::stream::both_ends;
use crate::{TcpIn, TcpOut};
use sj_base::NoMemory;
use sj_lane::{Lanes, MakeRefusal};
use std::alloc::Global;
use std::collections::VecDeque;
use std::net::Net;

/// So many bytes are read at once.
const PIECE: usize = 4096;

/// The ends of the list of what a party sends to itself.
fn own_link(alloc: Global) -> (TcpOut, TcpIn)
    ensures out { IsNewOut result.0 }
    ensures lane { IsNewIn result.1 }
    ensures own { address_out result.0 ≡ None }
    ensures joined { IsJoined result.0 result.1 }
{
    let sent = VecDeque::new(alloc);
    let came = VecDeque::new(alloc);
    (
        SocketOut::new(OutWay::Own(sent)),
        SocketIn::new(InWay::Own(came)),
    )
}

/// The ends of a new stream.
fn stream_link<R: Net>(net: &R, alloc: Global) -> Result<(TcpOut, TcpIn), MakeRefusal>
    ensures out { IfOk result (λ e. IsNewOut e.0) }
    ensures lane { IfOk result (λ e. IsNewIn e.1) }
    ensures stream { IfOk result (λ e. address_out e.0 ≢ None) }
    ensures joined { IfOk result (λ e. IsJoined e.0 e.1) }
{
    let Ok(room) = Vec::from_slice(alloc, &[0u8; PIECE]) else {
        return Err(MakeRefusal::NoMemory);
    };
    let Ok((near, far)) = both_ends(net) else {
        return Err(MakeRefusal::Fault);
    };
    let writer = Writer::new(alloc, near.0, near.1);
    let reader = Reader::new(alloc, far.0, far.1, room);
    Ok((
        SocketOut::new(OutWay::Stream(writer)),
        SocketIn::new(InWay::Stream(reader)),
    ))
}

/// The ends of the link from one party to another, or to itself.
fn link<R: Net>(
    net: &R,
    alloc: Global,
    from: usize,
    to: usize,
) -> Result<(TcpOut, TcpIn), MakeRefusal>
    ensures { IfOk result (λ e. IsNewLink from to e.0 e.1) }
{
    if from == to {
        return Ok(own_link(alloc));
    }
    match stream_link(net, alloc) {
        Ok(ends) => Ok(ends),
        Err(refusal) => Err(refusal),
    }
}

/// Puts the ends of a link after the lanes from its one party, and after those to the other.
fn join(
    outs: &mut Vec<TcpOut>,
    lanes: &mut Vec<Lanes<TcpOut, TcpIn>>,
    from: usize,
    to: usize,
    ends: (TcpOut, TcpIn),
) -> Result<(), NoMemory>
    requires within { to < length lanes.old.items }
    requires new { IsNewLink from to ends.0 ends.1 }
    requires outs { AreNewOuts to outs.old.items }
    requires lanes { Grid (length lanes.old.items) from to lanes.old.items }
    requires links { IsRowLinked from outs.old.items lanes.old.items }
    ensures outs { OnOk result (AreNewOuts (to + 1) outs.new.items) }
    ensures lanes { OnOk result (Grid (length lanes.old.items) from (to + 1) lanes.new.items) }
    ensures links { OnOk result (IsRowLinked from outs.new.items lanes.new.items) }
{
    let (out, lane) = ends;
    outs.push(out)?;
    lanes[to].ins.push(lane)?;
    Ok(())
}

/// The lanes from one party to all, whose other ends go to these.
fn row<R: Net>(
    net: &R,
    alloc: Global,
    lanes: &mut Vec<Lanes<TcpOut, TcpIn>>,
    from: usize,
) -> Result<Vec<TcpOut>, MakeRefusal>
    requires { Grid (length lanes.old.items) from 0 lanes.old.items }
    ensures outs { IfOk result (λ v. AreNewOuts (length lanes.old.items) v.items) }
    ensures lanes { OnOk result
        (Grid (length lanes.old.items) from (length lanes.old.items) lanes.new.items) }
    ensures links { IfOk result (λ v. IsRowLinked from v.items lanes.new.items) }
{
    let mut outs = Vec::new(alloc);
    for to in 0..lanes.len() {
        let ends = match link(net, alloc, from, to) {
            Ok(ends) => ends,
            Err(refusal) => return Err(refusal),
        };
        match join(&mut outs, lanes, from, to, ends) {
            Ok(()) => {}
            Err(NoMemory) => return Err(MakeRefusal::NoMemory),
        }
    }
    Ok(outs)
}

/// So many parties without lanes.
fn no_lanes(alloc: Global, parties: u16) -> Result<Vec<Lanes<TcpOut, TcpIn>>, NoMemory>
    ensures { IfOk result (λ v. Grid parties 0 0 v.items) }
{
    let mut lanes = Vec::new(alloc);
    for _ in 0..parties {
        lanes.push(Lanes {
            outs: Vec::new(alloc),
            ins: Vec::new(alloc),
        })?;
    }
    Ok(lanes)
}

/// The lanes of so many parties, each to and from all of them.
pub(crate) fn all_lanes<R: Net>(
    net: &R,
    alloc: Global,
    parties: u16,
) -> Result<Vec<Lanes<TcpOut, TcpIn>>, MakeRefusal>
    ensures { IfOk result (λ v. Grid parties parties 0 v.items) }
{
    let Ok(mut lanes) = no_lanes(alloc, parties) else {
        return Err(MakeRefusal::NoMemory);
    };
    for from in 0..usize::from(parties) {
        match row(net, alloc, &mut lanes, from) {
            Ok(outs) => lanes[from].outs = outs,
            Err(refusal) => return Err(refusal),
        }
    }
    Ok(lanes)
}
