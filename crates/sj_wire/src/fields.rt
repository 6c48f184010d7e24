//! The fields of frames, read from the start of bytes.
ghost use Rattle.std.specs.Prelude.{◌≤◌, IfOk};
ghost use Rattle.sj_wire.specs.Reading.{number_at, limited_at, flag_at, end_id_at};
ghost use Rattle.sj_wire.specs.Reads.{Reads};

use crate::WireRefusal;
use byteorder::{BigEndian, ByteOrder};
use sj_base::EndId;

#[tactic(auto, unfolding(crate::specs::Reading::number_at))]
pub(crate) fn u8_at(bytes: &[u8]) -> Result<(u8, &[u8]), WireRefusal>
    ensures { Reads (λ x. (x.0, x.1.now)) result (number_at 1 bytes.now) }
{
    if bytes.len() < 1 {
        return Err(WireRefusal::Value);
    }
    Ok((bytes[0], &bytes[1..]))
}

#[tactic(auto, unfolding(crate::specs::Reading::number_at))]
pub(crate) fn u16_at(bytes: &[u8]) -> Result<(u16, &[u8]), WireRefusal>
    ensures { Reads (λ x. (x.0, x.1.now)) result (number_at 2 bytes.now) }
{
    if bytes.len() < 2 {
        return Err(WireRefusal::Value);
    }
    Ok((BigEndian::read_u16(bytes), &bytes[2..]))
}

#[tactic(auto, unfolding(crate::specs::Reading::number_at))]
pub(crate) fn u32_at(bytes: &[u8]) -> Result<(u32, &[u8]), WireRefusal>
    ensures { Reads (λ x. (x.0, x.1.now)) result (number_at 4 bytes.now) }
{
    if bytes.len() < 4 {
        return Err(WireRefusal::Value);
    }
    Ok((BigEndian::read_u32(bytes), &bytes[4..]))
}

#[tactic(auto, unfolding(crate::specs::Reading::number_at))]
pub(crate) fn u64_at(bytes: &[u8]) -> Result<(u64, &[u8]), WireRefusal>
    ensures { Reads (λ x. (x.0, x.1.now)) result (number_at 8 bytes.now) }
{
    if bytes.len() < 8 {
        return Err(WireRefusal::Value);
    }
    Ok((BigEndian::read_u64(bytes), &bytes[8..]))
}

#[tactic(auto, unfolding(crate::specs::Reading::limited_at))]
pub(crate) fn u8_up_to(bytes: &[u8], limit: u8) -> Result<(u8, &[u8]), WireRefusal>
    ensures read { Reads (λ x. (x.0, x.1.now)) result (limited_at 1 limit bytes.now) }
    ensures limit { IfOk result (λ x. x.0 ≤ limit) }
{
    let (x, rest) = u8_at(bytes)?;
    if limit < x {
        return Err(WireRefusal::Value);
    }
    Ok((x, rest))
}

#[tactic(auto, unfolding(crate::specs::Reading::limited_at))]
pub(crate) fn u32_up_to(bytes: &[u8], limit: u32) -> Result<(u32, &[u8]), WireRefusal>
    ensures read { Reads (λ x. (x.0, x.1.now)) result (limited_at 4 limit bytes.now) }
    ensures limit { IfOk result (λ x. x.0 ≤ limit) }
{
    let (x, rest) = u32_at(bytes)?;
    if limit < x {
        return Err(WireRefusal::Value);
    }
    Ok((x, rest))
}

#[tactic(auto, unfolding(crate::specs::Reading::limited_at))]
pub(crate) fn u64_up_to(bytes: &[u8], limit: u64) -> Result<(u64, &[u8]), WireRefusal>
    ensures read { Reads (λ x. (x.0, x.1.now)) result (limited_at 8 limit bytes.now) }
    ensures limit { IfOk result (λ x. x.0 ≤ limit) }
{
    let (x, rest) = u64_at(bytes)?;
    if limit < x {
        return Err(WireRefusal::Value);
    }
    Ok((x, rest))
}

#[tactic(auto, unfolding(crate::specs::Reading::flag_at))]
pub(crate) fn flag(bytes: &[u8]) -> Result<(bool, &[u8]), WireRefusal>
    ensures { Reads (λ x. (x.0, x.1.now)) result (flag_at bytes.now) }
{
    let (x, rest) = u8_up_to(bytes, 1)?;
    Ok((x == 1, rest))
}

#[tactic(auto, unfolding(crate::specs::Reading::end_id_at))]
pub(crate) fn end_id(bytes: &[u8]) -> Result<(EndId, &[u8]), WireRefusal>
    ensures { Reads (λ x. (x.0, x.1.now)) result (end_id_at bytes.now) }
{
    let (sess, rest) = u32_at(bytes)?;
    let (side, rest) = u8_up_to(rest, 1)?;
    Ok((EndId { sess, side }, rest))
}
