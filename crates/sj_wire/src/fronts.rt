//! What stands at the start of bytes.
ghost use Rattle.std.specs.Prelude.{◌≤◌, length, take, drop, IfOk, IfSome};
ghost use Rattle.sj_end.specs.Views.{frame_at};
ghost use Rattle.sj_wire.specs.Front.{front_of, sized_of, whole_of};
ghost use Rattle.sj_wire.specs.Reading as fields;
ghost use Rattle.sj_wire.specs.Reads.{MeetsFront, MeetsSized, MeetsWhole, Reads};

use crate::WireRefusal;
use crate::bodies::body;
use crate::fields::{end_id, u64_up_to};
use crate::kind::Kind;
use crate::limits::{LAST_CLOCK, LEAST_LENGTH, MOST_LENGTH, OPEN_VERSION, VERSION};
use byteorder::{BigEndian, ByteOrder};
use sj_end::Frame;
use std::alloc::Global;

/// What stands after the kind of a frame, all of it.
#[tactic(auto, unfolding(crate::specs::Reading::frame_at))]
fn frame_of(alloc: Global, kind: Kind, bytes: &[u8]) -> Result<Frame, WireRefusal>
    ensures { Reads frame_at result (fields.frame_at kind bytes.now) }
{
    let (clock, rest) = u64_up_to(bytes, LAST_CLOCK)?;
    let (end, rest) = end_id(rest)?;
    let (body, rest) = body(alloc, kind, end, rest)?;
    if !rest.is_empty() {
        return Err(WireRefusal::Value);
    }
    Ok(Frame { clock, body })
}

/// The frame of that size, whose bytes are all there.
#[tactic(auto, unfolding(crate::specs::Front::whole_of))]
fn whole(alloc: Global, bytes: &[u8], size: usize) -> Result<Frame, WireRefusal>
    requires least { 2 ≤ size }
    requires all { size ≤ length bytes.now }
    ensures { MeetsWhole result (whole_of (take size bytes.now) (drop size bytes.now)) (drop size bytes.now) }
{
    let inside = &bytes[..size];
    let version = inside[0];
    if version != VERSION && version != OPEN_VERSION {
        return Err(WireRefusal::Version);
    }
    match Kind::of_bytes(version, inside[1]) {
        None => Err(WireRefusal::Kind),
        Some(kind) => frame_of(alloc, kind, &inside[2..]),
    }
}

/// The frame after its length.
#[tactic(auto, unfolding(crate::specs::Front::sized_of))]
fn read_sized(alloc: Global, size: u32, bytes: &[u8]) -> Result<Option<Frame>, WireRefusal>
    ensures read { MeetsSized result (sized_of size bytes.now) (drop size bytes.now) }
    ensures all { IfOk result (λ x. IfSome x (λ _. size ≤ length bytes.now)) }
{
    if size < LEAST_LENGTH || MOST_LENGTH < size {
        return Err(WireRefusal::Length);
    }
    let size = size as usize;
    if bytes.len() < size {
        return Ok(None);
    }
    match whole(alloc, bytes, size) {
        Ok(frame) => Ok(Some(frame)),
        Err(e) => Err(e),
    }
}

/// The frame at the start of the bytes, and how many bytes it takes. None is less than a frame.
#[tactic(auto, unfolding(crate::specs::Front::front_of))]
pub(crate) fn front(alloc: Global, bytes: &[u8]) -> Result<Option<(Frame, usize)>, WireRefusal>
    ensures { MeetsFront result bytes.now }
{
    if bytes.len() < 4 {
        return Ok(None);
    }
    let size = BigEndian::read_u32(bytes);
    match read_sized(alloc, size, &bytes[4..]) {
        Ok(Some(frame)) => Ok(Some((frame, 4 + size as usize))),
        Ok(None) => Ok(None),
        Err(e) => Err(e),
    }
}
