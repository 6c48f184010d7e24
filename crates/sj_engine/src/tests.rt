//! Frames that go from one lane to the other as bytes, in pieces.
use crate::{ByteIn, ByteOut, SpellRefusal};
use sj_base::{EndId, Msg};
use sj_end::{Body, Frame};
use sj_lane::{InLane, OutLane, PopRefusal};
use std::test::Fail;

/// The message of that number.
fn carry(number: u32) -> Frame {
    Frame {
        clock: 1,
        body: Body::Carry {
            to: EndId { sess: 0, side: 1 },
            conn: 0,
            number,
            taken: 0,
            msg: Msg::Int(5),
        },
    }
}

/// The number of a message.
fn shown(frame: Frame) -> u32 {
    match frame.body {
        Body::Carry { number, .. } => number,
        _ => 99,
    }
}

/// The number of the message that the lane answers.
fn pop_number(lane: &mut ByteIn) -> Result<Option<u32>, PopRefusal> {
    match lane.pop()? {
        Some(frame) => Ok(Some(shown(frame))),
        None => Ok(None),
    }
}

#[test]
fn frames_come_once_their_last_byte_is_there(rt: HostRuntime) -> Result<(), Fail> {
    let mut out = ByteOut::new(rt.alloc());
    assert!(rt; out.push(carry(3)).is_ok());
    assert!(rt; out.push(carry(4)).is_ok());
    let mut text = Vec::new(rt.alloc());
    assert_eq!(rt; out.spell(&mut text), Ok(()));
    let mut ins = ByteIn::new(rt.alloc());
    let mut came = Vec::new(rt.alloc());
    for &byte in &text {
        if let Some(number) = pop_number(&mut ins).unwrap_or(Some(99)) {
            came.push(number)?;
        }
        ins.feed(&[byte])?;
    }
    assert_eq!(rt; came.as_slice(), [3].as_slice());
    assert_eq!(rt; pop_number(&mut ins), Ok(Some(4)));
    assert_eq!(rt; pop_number(&mut ins), Ok(None));
    Ok(())
}

#[test]
fn what_was_cleared_is_gone(rt: HostRuntime) -> Result<(), Fail> {
    let mut out = ByteOut::new(rt.alloc());
    assert!(rt; out.push(carry(3)).is_ok());
    assert!(rt; !out.is_empty());
    out.clear();
    assert!(rt; out.is_empty());
    let mut text = Vec::new(rt.alloc());
    assert_eq!(rt; out.spell(&mut text), Ok(()));
    assert_eq!(rt; text.len(), 0);
    Ok(())
}

#[test]
fn what_is_outside_the_limits_is_refused(rt: HostRuntime) -> Result<(), Fail> {
    let mut ins = ByteIn::new(rt.alloc());
    ins.feed(b"this is no frame at all")?;
    assert_eq!(rt; pop_number(&mut ins), Err(PopRefusal::Fault));
    let mut out = ByteOut::new(rt.alloc());
    assert!(rt; out.push(carry(1_000_001)).is_ok());
    let mut text = Vec::new(rt.alloc());
    assert_eq!(rt; out.spell(&mut text), Err(SpellRefusal::Unlawful));
    Ok(())
}
