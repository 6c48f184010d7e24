//! The fields of frames, put after bytes.
ghost use Rattle.std.specs.Prelude.{◌≡◌, ◌++◌, OnOk};
ghost use Rattle.std.specs.Int.{cast_unsigned};
ghost use Rattle.sj_wire.specs.Spelling.{number, flag, end_id, message, resend};

use byteorder::{BigEndian, ByteOrder};
use sj_base::{EndId, Msg};
use std::alloc::AllocError;

#[tactic(auto, unfolding(crate::specs::Spelling::number))]
pub(crate) fn put_u8(out: &mut Vec<u8>, x: u8) -> Result<(), AllocError>
    ensures { OnOk result (out.new.items ≡ out.old.items ++ number 1 x) }
{
    out.push(x)?;
    Ok(())
}

#[tactic(auto, unfolding(crate::specs::Spelling::number))]
pub(crate) fn put_u16(out: &mut Vec<u8>, x: u16) -> Result<(), AllocError>
    ensures { OnOk result (out.new.items ≡ out.old.items ++ number 2 x) }
{
    let mut bytes = [0u8; 2];
    BigEndian::write_u16(&mut bytes, x);
    out.extend_from_slice(&bytes)
}

#[tactic(auto, unfolding(crate::specs::Spelling::number))]
pub(crate) fn put_u32(out: &mut Vec<u8>, x: u32) -> Result<(), AllocError>
    ensures { OnOk result (out.new.items ≡ out.old.items ++ number 4 x) }
{
    let mut bytes = [0u8; 4];
    BigEndian::write_u32(&mut bytes, x);
    out.extend_from_slice(&bytes)
}

#[tactic(auto, unfolding(crate::specs::Spelling::number))]
pub(crate) fn put_u64(out: &mut Vec<u8>, x: u64) -> Result<(), AllocError>
    ensures { OnOk result (out.new.items ≡ out.old.items ++ number 8 x) }
{
    let mut bytes = [0u8; 8];
    BigEndian::write_u64(&mut bytes, x);
    out.extend_from_slice(&bytes)
}

#[tactic(auto, unfolding(crate::specs::Spelling::flag))]
pub(crate) fn put_flag(out: &mut Vec<u8>, b: bool) -> Result<(), AllocError>
    ensures { OnOk result (out.new.items ≡ out.old.items ++ flag b) }
{
    if b { put_u8(out, 1) } else { put_u8(out, 0) }
}

#[tactic(auto, unfolding(crate::specs::Spelling::end_id))]
pub(crate) fn put_end_id(out: &mut Vec<u8>, end: EndId) -> Result<(), AllocError>
    ensures { OnOk result (out.new.items ≡ out.old.items ++ end_id end) }
{
    put_u32(out, end.sess)?;
    put_u8(out, end.side)
}

#[tactic(auto, unfolding(crate::specs::Spelling::message))]
pub(crate) fn put_message(out: &mut Vec<u8>, msg: Msg) -> Result<(), AllocError>
    ensures { OnOk result (out.new.items ≡ out.old.items ++ message msg) }
{
    match msg {
        Msg::Int(i) => {
            put_u8(out, 0)?;
            put_u64(out, i.cast_unsigned())
        }
        Msg::Bool(b) => {
            put_u8(out, 1)?;
            put_flag(out, b)
        }
        Msg::Text(t) => {
            put_u8(out, 2)?;
            put_u32(out, t)
        }
        Msg::Label(l) => {
            put_u8(out, 3)?;
            put_u16(out, l)
        }
        Msg::More(b) => {
            put_u8(out, 4)?;
            put_flag(out, b)
        }
        Msg::Sess { sess, side, keeper } => {
            put_u8(out, 5)?;
            put_end_id(out, EndId { sess, side })?;
            put_u16(out, keeper)
        }
    }
}

#[tactic(auto, unfolding(crate::specs::Spelling::resend))]
pub(crate) fn put_resend(out: &mut Vec<u8>, from: Option<u32>) -> Result<(), AllocError>
    ensures { OnOk result (out.new.items ≡ out.old.items ++ resend from) }
{
    match from {
        None => put_flag(out, false),
        Some(r) => {
            put_flag(out, true)?;
            put_u32(out, r)
        }
    }
}
