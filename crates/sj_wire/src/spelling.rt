//! Frames, put into bytes.
ghost use Rattle.std.specs.Prelude.{◌≡◌, ◌++◌, ◌<◌, ◌≤◌, ◌^◌, ◌↔◌, drop, length, IfOk, OnOk};
ghost use Rattle.std.specs.List.{flat_map};
ghost use Rattle.std.specs.Result.{IsErrOf};
ghost use Rattle.sj_end.specs.Bodies.{body_at};
ghost use Rattle.sj_end.specs.Views.{frame_at};
ghost use Rattle.sj_rules.specs.Record as rules;
ghost use Rattle.sj_wire.specs.Kinds.{end_in};
ghost use Rattle.sj_wire.specs.Lawful.{IsLawful, cached_in};
ghost use Rattle.sj_wire.specs.Limits.{most_cached};
ghost use Rattle.sj_wire.specs.Spelling.{counts, inside, message, spelling};
ghost use Rattle.sj_wire.specs.Spelling as spelled;
ghost use Rattle.sj_wire.specs.declared.refusal.EncodeRefusal.TheVariants as refusals;

use crate::EncodeRefusal;
use crate::field_bytes::{put_end_id, put_message, put_resend, put_u8, put_u16, put_u32, put_u64};
use crate::kind::Kind;
use crate::limits::MOST_CACHED;
use byteorder::{BigEndian, ByteOrder};
use sj_base::{EndId, Msg};
use sj_end::{Body, End, Frame};
use std::alloc::{AllocError, Global};
use std::collections::VecDeque;

fn put_slice(out: &mut Vec<u8>, msgs: &[Msg]) -> Result<(), AllocError>
    ensures { OnOk result (out.new.items ≡ out.old.items ++ flat_map message msgs.now) }
{
    for msg in msgs {
        put_message(out, *msg)?;
    }
    Ok(())
}

/// The messages of a cache.
fn put_messages(out: &mut Vec<u8>, cache: &VecDeque<Msg>) -> Result<(), AllocError>
    ensures { OnOk result (out.new.items ≡ out.old.items ++ flat_map message cache.now.items) }
{
    let (front, back) = cache.as_slices();
    put_slice(out, front)?;
    put_slice(out, back)
}

/// The numbers of an end, but for its name.
#[tactic(auto, unfolding(crate::specs::Spelling::counts))]
fn put_counts(out: &mut Vec<u8>, end: &End) -> Result<(), AllocError>
    ensures { OnOk result (out.new.items ≡ out.old.items ++ counts end.now) }
{
    put_u32(out, end.conn)?;
    put_u16(out, end.peer)?;
    put_u32(out, end.sent)?;
    put_u32(out, end.taken)?;
    put_u8(out, end.hops)
}

#[tactic(auto, unfolding(crate::specs::Spelling::body))]
fn put_give(out: &mut Vec<u8>, end: &End, from: Option<u32>) -> Result<(), AllocError>
    requires { length end.now.cache < 2 ^ 32 }
    ensures { OnOk result (out.new.items ≡ out.old.items ++ spelled.body (rules.Give end.now from)) }
{
    put_counts(out, end)?;
    put_u32(out, end.cache.len() as u32)?;
    put_messages(out, &end.cache)?;
    put_resend(out, from)
}

/// The fields of a body, but for its end's name.
#[tactic(auto, unfolding(crate::specs::Spelling::body))]
fn put_body(out: &mut Vec<u8>, body: &Body) -> Result<(), AllocError>
    requires { cached_in (body_at body.now) < 2 ^ 32 }
    ensures { OnOk result (out.new.items ≡ out.old.items ++ spelled.body (body_at body.now)) }
{
    match body {
        Body::Carry {
            conn,
            number,
            taken,
            msg,
            ..
        } => {
            put_u32(out, *conn)?;
            put_u32(out, *number)?;
            put_u32(out, *taken)?;
            put_message(out, *msg)
        }
        Body::Fin { conn, number, .. } => {
            put_u32(out, *conn)?;
            put_u32(out, *number)
        }
        Body::Claim { .. } => Ok(()),
        Body::Signal {
            conn,
            party,
            taken,
            ..
        } => {
            put_u32(out, *conn)?;
            put_u16(out, *party)?;
            put_u32(out, *taken)
        }
        Body::Ack { conn, .. } => put_u32(out, *conn),
        Body::Give { end, resend } => put_give(out, end, *resend),
        Body::Open { .. } => Ok(()),
    }
}

/// What follows the length of a frame.
#[tactic(auto, unfolding(crate::specs::Spelling::inside))]
fn put_inside(out: &mut Vec<u8>, frame: &Frame) -> Result<(), AllocError>
    requires { cached_in (body_at frame.now.body) < 2 ^ 32 }
    ensures { OnOk result (out.new.items ≡ out.old.items ++ inside (frame_at frame.now)) }
{
    let kind = Kind::of(&frame.body);
    put_u8(out, kind.version())?;
    put_u8(out, kind.code())?;
    put_u64(out, frame.clock)?;
    put_end_id(out, end_of(&frame.body))?;
    put_body(out, &frame.body)
}

/// The end that a body names first.
pub(crate) fn end_of(body: &Body) -> EndId
    ensures { result ≡ end_in (body_at body.now) }
{
    match body {
        Body::Carry { to, .. } | Body::Fin { to, .. } | Body::Signal { to, .. } => *to,
        Body::Claim { of } | Body::Ack { of, .. } => *of,
        Body::Give { end, .. } => end.id,
        Body::Open { sess } => EndId {
            sess: *sess,
            side: 1,
        },
    }
}

/// How many messages of a cache the body has.
fn cached_count(body: &Body) -> usize
    ensures { result ≡ cached_in (body_at body.now) }
{
    match body {
        Body::Give { end, .. } => end.cache.len(),
        _ => 0,
    }
}

/// Writes their length, less four bytes, into the first four bytes.
#[tactic(auto, unfolding(crate::specs::Spelling::framed, crate::specs::Spelling::number))]
fn put_length(bytes: &mut [u8])
    requires least { 4 ≤ length bytes.old }
    requires most { length bytes.old < 2 ^ 32 }
    ensures { bytes.new ≡ spelled.framed (drop 4 bytes.old) }
{
    let length = (bytes.len() - 4) as u32;
    BigEndian::write_u32(bytes, length);
}

/// The frame's bytes, with their length before them.
fn spell(alloc: Global, frame: &Frame) -> Result<Vec<u8>, AllocError>
    requires { cached_in (body_at frame.now.body) ≤ most_cached }
    ensures { IfOk result (λ bytes. bytes.items ≡ spelling (frame_at frame.now)) }
{
    let mut out = Vec::new(alloc);
    put_u32(&mut out, 0)?;
    put_inside(&mut out, frame)?;
    put_length(&mut out);
    Ok(out)
}

/// The one spelling of a frame. `TooLong` comes before any memory is taken.
pub fn encode(alloc: Global, frame: &Frame) -> Result<Vec<u8>, EncodeRefusal>
    requires { IsLawful (frame_at frame.now) }
    ensures ok { IfOk result (λ bytes. bytes.items ≡ spelling (frame_at frame.now)) }
    ensures too_long { IsErrOf result refusals.TooLong ↔ (most_cached < cached_in (body_at frame.now.body)) }
{
    if cached_count(&frame.body) > MOST_CACHED as usize {
        return Err(EncodeRefusal::TooLong);
    }
    Ok(spell(alloc, frame)?)
}
