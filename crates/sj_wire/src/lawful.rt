//! Which frames keep the limits of the wire.
ghost use Rattle.std.specs.Prelude.{◌≤◌, ◌↔◌, IfSome, IsTrue};
ghost use Rattle.std.specs.List.{AllByRecursion};
ghost use Rattle.sj_end.specs.Bodies.{body_at};
ghost use Rattle.sj_end.specs.Views.{frame_at};
ghost use Rattle.sj_rules.specs.Record as rules;
ghost use Rattle.sj_wire.specs.Lawful.{HasSide, IsLawful, IsWithin};

use crate::limits::{LAST_CLOCK, LIMIT_OF_CONNS, LIMIT_OF_HOPS, LIMIT_OF_MESSAGES};
use crate::spelling::end_of;
use sj_base::Msg;
use sj_end::{Body, End, Frame};
use std::collections::VecDeque;

/// Whether a message that names an end names one of the two of its session.
fn has_side(msg: &Msg) -> bool
    ensures { IsTrue result ↔ HasSide msg.now }
{
    match msg {
        Msg::Sess { side, .. } => *side <= 1,
        _ => true,
    }
}

fn all_have_sides(msgs: &[Msg]) -> bool
    ensures { IsTrue result ↔ AllByRecursion HasSide msgs.now }
{
    for msg in msgs {
        if !has_side(msg) {
            return false;
        }
    }
    true
}

fn has_sides(cache: &VecDeque<Msg>) -> bool
    ensures { IsTrue result ↔ AllByRecursion HasSide cache.now.items }
{
    let (front, back) = cache.as_slices();
    all_have_sides(front) && all_have_sides(back)
}

/// Whether the cache goes again from its base on, from a later number, or not at all.
fn goes_again(end: &End, resend: Option<u32>) -> bool
    ensures { IsTrue result ↔ IfSome resend (λ n. (end.now.base ≤ n) × (n ≤ end.now.sent)) }
{
    match resend {
        Some(from) => end.base <= from && from <= end.sent,
        None => true,
    }
}

/// Whether what is said of an end that is given is within the limits.
fn is_given_within(end: &End, resend: Option<u32>) -> bool
    ensures { IsTrue result ↔ IsWithin (rules.Give end.now resend) }
{
    end.conn <= LIMIT_OF_CONNS
        && end.sent <= LIMIT_OF_MESSAGES
        && end.taken <= LIMIT_OF_MESSAGES
        && end.hops <= LIMIT_OF_HOPS
        && has_sides(&end.cache)
        && goes_again(end, resend)
}

fn is_within(body: &Body) -> bool
    ensures { IsTrue result ↔ IsWithin (body_at body.now) }
{
    match body {
        Body::Carry {
            conn,
            number,
            taken,
            msg,
            ..
        } => {
            *conn <= LIMIT_OF_CONNS
                && *number <= LIMIT_OF_MESSAGES
                && *taken <= LIMIT_OF_MESSAGES
                && has_side(msg)
        }
        Body::Fin { conn, number, .. } => *conn <= LIMIT_OF_CONNS && *number <= LIMIT_OF_MESSAGES,
        Body::Claim { .. } => true,
        Body::Signal { conn, taken, .. } => *conn <= LIMIT_OF_CONNS && *taken <= LIMIT_OF_MESSAGES,
        Body::Ack { conn, .. } => *conn <= LIMIT_OF_CONNS,
        Body::Give { end, resend } => is_given_within(end, *resend),
        Body::Open { .. } => true,
    }
}

/// Whether the frame keeps the limits of the wire, as `encode` asks. Takes
/// time linear in its cache.
pub fn is_lawful(frame: &Frame) -> bool
    ensures { IsTrue result ↔ IsLawful (frame_at frame.now) }
{
    frame.clock <= LAST_CLOCK && end_of(&frame.body).side <= 1 && is_within(&frame.body)
}
