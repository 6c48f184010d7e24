//! Bodies, read from the start of bytes.
ghost use Rattle.std.specs.Prelude.{◌-◌};
ghost use Rattle.sj_end.specs.Bodies as bodies;
ghost use Rattle.sj_wire.specs.Reading.{ack_at, body_at, carry_at, fin_at, give_at, open_at, resend_at, signal_at};
ghost use Rattle.sj_wire.specs.Reads.{Reads};

use crate::WireRefusal;
use crate::fields::{flag, u8_up_to, u16_at, u32_up_to};
use crate::kind::Kind;
use crate::limits::{LIMIT_OF_CONNS, LIMIT_OF_HOPS, LIMIT_OF_MESSAGES, MOST_CACHED};
use crate::messages::{message, messages};
use sj_base::EndId;
use sj_end::{Body, End};
use sj_table::Spot;
use std::alloc::Global;

#[tactic(auto, unfolding(crate::specs::Reading::carry_at))]
fn carry(to: EndId, bytes: &[u8]) -> Result<(Body, &[u8]), WireRefusal>
    ensures { Reads (λ x. (bodies.body_at x.0, x.1.now)) result (carry_at to bytes.now) }
{
    let (conn, rest) = u32_up_to(bytes, LIMIT_OF_CONNS)?;
    let (number, rest) = u32_up_to(rest, LIMIT_OF_MESSAGES)?;
    let (taken, rest) = u32_up_to(rest, LIMIT_OF_MESSAGES)?;
    let (msg, rest) = message(rest)?;
    let body = Body::Carry {
        to,
        conn,
        number,
        taken,
        msg,
    };
    Ok((body, rest))
}

#[tactic(auto, unfolding(crate::specs::Reading::fin_at))]
fn fin(to: EndId, bytes: &[u8]) -> Result<(Body, &[u8]), WireRefusal>
    ensures { Reads (λ x. (bodies.body_at x.0, x.1.now)) result (fin_at to bytes.now) }
{
    let (conn, rest) = u32_up_to(bytes, LIMIT_OF_CONNS)?;
    let (number, rest) = u32_up_to(rest, LIMIT_OF_MESSAGES)?;
    Ok((Body::Fin { to, conn, number }, rest))
}

#[tactic(auto, unfolding(crate::specs::Reading::signal_at))]
fn signal(to: EndId, bytes: &[u8]) -> Result<(Body, &[u8]), WireRefusal>
    ensures { Reads (λ x. (bodies.body_at x.0, x.1.now)) result (signal_at to bytes.now) }
{
    let (conn, rest) = u32_up_to(bytes, LIMIT_OF_CONNS)?;
    let (party, rest) = u16_at(rest)?;
    let (taken, rest) = u32_up_to(rest, LIMIT_OF_MESSAGES)?;
    let body = Body::Signal {
        to,
        conn,
        party,
        taken,
    };
    Ok((body, rest))
}

#[tactic(auto, unfolding(crate::specs::Reading::ack_at))]
fn ack(of: EndId, bytes: &[u8]) -> Result<(Body, &[u8]), WireRefusal>
    ensures { Reads (λ x. (bodies.body_at x.0, x.1.now)) result (ack_at of bytes.now) }
{
    let (conn, rest) = u32_up_to(bytes, LIMIT_OF_CONNS)?;
    Ok((Body::Ack { of, conn }, rest))
}

/// The number from which a cache goes again, where it does.
#[tactic(auto, unfolding(crate::specs::Reading::resend_at))]
fn resend(bytes: &[u8], base: u32, sent: u32) -> Result<(Option<u32>, &[u8]), WireRefusal>
    ensures { Reads (λ x. (x.0, x.1.now)) result (resend_at base sent bytes.now) }
{
    let (again, rest) = flag(bytes)?;
    if !again {
        return Ok((None, rest));
    }
    let (from, rest) = u32_up_to(rest, sent)?;
    if from < base {
        return Err(WireRefusal::Value);
    }
    Ok((Some(from), rest))
}

#[tactic(auto, unfolding(crate::specs::Reading::counts_at, crate::specs::Reading::give_at))]
fn give(alloc: Global, id: EndId, bytes: &[u8]) -> Result<(Body, &[u8]), WireRefusal>
    ensures { Reads (λ x. (bodies.body_at x.0, x.1.now)) result (give_at id bytes.now) }
{
    let (conn, rest) = u32_up_to(bytes, LIMIT_OF_CONNS)?;
    let (peer, rest) = u16_at(rest)?;
    let (sent, rest) = u32_up_to(rest, LIMIT_OF_MESSAGES)?;
    let (taken, rest) = u32_up_to(rest, LIMIT_OF_MESSAGES)?;
    let (hops, rest) = u8_up_to(rest, LIMIT_OF_HOPS)?;
    let (count, rest) = u32_up_to(rest, sent.min(MOST_CACHED))?;
    let base = sent - count;
    let (cache, rest) = messages(alloc, count, rest)?;
    let (resend, rest) = resend(rest, base, sent)?;
    let end = End {
        id,
        place: Spot { node: 0 },
        conn,
        peer,
        sent,
        taken,
        base,
        cache,
        hops,
    };
    let end = Box::new(alloc, end)?;
    Ok((Body::Give { end, resend }, rest))
}

/// An Open has no fields, and is for side 1.
#[tactic(auto, unfolding(crate::specs::Reading::open_at))]
fn opening(end: EndId, bytes: &[u8]) -> Result<(Body, &[u8]), WireRefusal>
    ensures { Reads (λ x. (bodies.body_at x.0, x.1.now)) result (open_at end bytes.now) }
{
    if end.side != 1 {
        return Err(WireRefusal::Value);
    }
    Ok((Body::Open { sess: end.sess }, bytes))
}

/// The fields of a body of that kind, for that end.
#[tactic(auto, unfolding(crate::specs::Reading::body_at))]
pub(crate) fn body(
    alloc: Global,
    kind: Kind,
    end: EndId,
    bytes: &[u8],
) -> Result<(Body, &[u8]), WireRefusal>
    ensures { Reads (λ x. (bodies.body_at x.0, x.1.now)) result (body_at kind end bytes.now) }
{
    match kind {
        Kind::Carry => carry(end, bytes),
        Kind::Fin => fin(end, bytes),
        Kind::Claim => Ok((Body::Claim { of: end }, bytes)),
        Kind::Signal => signal(end, bytes),
        Kind::Ack => ack(end, bytes),
        Kind::Give => give(alloc, end, bytes),
        Kind::Open => opening(end, bytes),
    }
}
