//! Frames over streams of this machine, and what is a fault there.
ghost use Rattle.std.specs.Prelude.{◌≡◌, ◌<◌, vec_len};
ghost use Rattle.sj_lane.specs.Square.{AllJoined, IsSquare};
ghost use Rattle.sj_socket.specs.Joined.{IsJoined};

use crate::in_lane::{InWay, Reader};
use crate::stream::{StreamEnd, accept, both_ends, connect, listen};
use crate::{SocketLinks, TcpIn, TcpOut};
use mio::net::TcpStream;
use sj_base::{EndId, Msg};
use sj_end::{Body, Frame};
use sj_lane::{InLane, Lanes, Links, OutLane, PopRefusal, PushRefusal};
use std::alloc::Global;
use std::io::{Read, Write};
use std::test::Fail;

/// So often a call that would wait is tried again.
const TRIES: u32 = 1_000_000;

/// The message of that number, in that connection.
fn carry(conn: u32, number: u32) -> Frame {
    Frame {
        clock: 1,
        body: Body::Carry {
            to: EndId { sess: 0, side: 1 },
            conn,
            number,
            taken: 0,
            msg: Msg::Int(5),
        },
    }
}

/// The connection and the number of a message.
fn shown(frame: Frame) -> (u32, u32) {
    match frame.body {
        Body::Carry { conn, number, .. } => (conn, number),
        _ => (99, 99),
    }
}

/// Reads a byte, however long it takes to come.
fn byte_from(stream: &mut TcpStream) -> Option<u8> {
    let mut byte = [0u8; 1];
    for _ in 0..TRIES {
        if let Ok(1) = stream.read(&mut byte) {
            return Some(byte[0]);
        }
    }
    None
}

/// What a lane answers that isn't none, however long it takes to come.
fn pop_next(lane: &mut TcpIn) -> Result<Option<(u32, u32)>, PopRefusal> {
    for _ in 0..TRIES {
        if let Some(frame) = lane.pop()? {
            return Ok(Some(shown(frame)));
        }
    }
    Ok(None)
}

/// A lane over that end of a stream.
fn lane_from(alloc: Global, far: StreamEnd) -> Result<TcpIn, Fail> {
    let room = Vec::from_slice(alloc, &[0u8; 16])?;
    let reader = Reader::new(alloc, far.0, far.1, room);
    Ok(TcpIn::new(InWay::Stream(reader)))
}

#[test]
fn a_stream_from_a_stranger_is_refused(rt: HostRuntime) -> Result<(), Fail> {
    let (listener, port) = listen(&rt)?;
    let (mut stranger, _) = connect(&rt, port)?;
    let (mut near, from) = connect(&rt, port)?;
    let (mut far, _) = accept(&listener, from, TRIES)?;
    stranger.write(&[1])?;
    near.write(&[2])?;
    assert_eq!(rt; byte_from(&mut far), Some(2));
    Ok(())
}

#[test]
fn tries_in_vain_have_an_end(rt: HostRuntime) -> Result<(), Fail> {
    let (listener, port) = listen(&rt)?;
    let (_other, _) = listen(&rt)?;
    let (_stranger, from) = connect(&rt, port)?;
    let first = accept(&listener, from, TRIES)?;
    assert!(rt; accept(&listener, from, 3).is_err());
    drop(first);
    Ok(())
}

#[test]
fn frames_come_in_order(rt: HostRuntime) -> Result<(), Fail> {
    let mut links = SocketLinks::new(&rt);
    let mut lanes = links.make(rt.alloc(), 2)?;
    let first = lanes.get_mut(0).ok_or("no party")?;
    let out = first.outs.get_mut(1).ok_or("no lane")?;
    let mut sent = 0u32;
    for number in 0..1_000_000u32 {
        match out.push(carry(0, number)) {
            Ok(()) => sent = number + 1,
            Err((frame, why)) => {
                assert_eq!(rt; (shown(frame), why), ((0, number), PushRefusal::Full));
                break;
            }
        }
    }
    assert!(rt; sent > 100, "{sent}");
    assert_eq!(rt; (out.faults, out.vain), (0, 1));
    let second = lanes.get_mut(1).ok_or("no party")?;
    let lane = second.ins.get_mut(0).ok_or("no lane")?;
    for number in 0..sent.saturating_sub(1) {
        assert_eq!(rt; pop_next(lane)?, Some((0, number)));
    }
    Ok(())
}

#[test]
fn a_frame_outside_the_limits_is_a_fault(rt: HostRuntime) -> Result<(), Fail> {
    let mut links = SocketLinks::new(&rt);
    let mut lanes = links.make(rt.alloc(), 2)?;
    let first = lanes.get_mut(0).ok_or("no party")?;
    let out = first.outs.get_mut(1).ok_or("no lane")?;
    let refused = out
        .push(carry(1001, 0))
        .map_err(|(frame, why)| (shown(frame), why));
    assert_eq!(rt; refused, Err(((1001, 0), PushRefusal::Fault)));
    assert_eq!(rt; (out.faults, out.vain), (1, 0));
    assert!(rt; out.push(carry(1000, 0)).is_ok());
    Ok(())
}

#[test]
fn what_is_no_frame_is_a_fault(rt: HostRuntime) -> Result<(), Fail> {
    let ((mut near, _), far) = both_ends(&rt)?;
    let mut lane = lane_from(rt.alloc(), far)?;
    near.write(&[0, 0, 0, 14])?;
    assert_eq!(rt; pop_next(&mut lane), Err(PopRefusal::Fault));
    assert_eq!(rt; pop_next(&mut lane), Err(PopRefusal::Fault));
    assert_eq!(rt; lane.faults, 2);
    Ok(())
}

#[test]
fn the_end_of_a_stream_is_a_fault(rt: HostRuntime) -> Result<(), Fail> {
    let ((mut near, _), far) = both_ends(&rt)?;
    let mut lane = lane_from(rt.alloc(), far)?;
    near.write(&[0, 0, 0])?;
    drop(near);
    assert_eq!(rt; pop_next(&mut lane), Err(PopRefusal::Fault));
    assert_eq!(rt; lane.faults, 1);
    Ok(())
}

/// Pushes the frame on the lane from one party to another.
fn push(
    lanes: &mut Vec<Lanes<TcpOut, TcpIn>>,
    from: usize,
    to: usize,
    frame: Frame,
) -> Result<(), PushRefusal>
    requires from { from < vec_len lanes.old }
    requires to { to < vec_len lanes.old }
    requires square { IsSquare lanes.old.items }
    requires joined { AllJoined IsJoined lanes.old.items }
    ensures size { vec_len lanes.new ≡ vec_len lanes.old }
    ensures square { IsSquare lanes.new.items }
    ensures joined { AllJoined IsJoined lanes.new.items }
{
    match lanes[from].outs[to].push(frame) {
        Ok(()) => Ok(()),
        Err((_, why)) => Err(why),
    }
}

#[test]
fn a_frame_to_oneself_comes_with_the_carry(rt: HostRuntime) -> Result<(), Fail> {
    let mut links = SocketLinks::new(&rt);
    let mut lanes = links.make(rt.alloc(), 1)?;
    push(&mut lanes, 0, 0, carry(0, 7))?;
    links.carry(&mut lanes)?;
    let own = lanes.get_mut(0).ok_or("no party")?;
    let lane = own.ins.get_mut(0).ok_or("no lane")?;
    assert_eq!(rt; lane.pop()?.map(shown), Some((0, 7)));
    assert_eq!(rt; lane.pop()?.map(shown), None);
    assert_eq!(rt; (lane.faults, lane.vain), (0, 1));
    Ok(())
}

#[test]
fn the_faults_of_lanes_are_added_when_they_come_back(rt: HostRuntime) -> Result<(), Fail> {
    let mut links = SocketLinks::new(&rt);
    let mut lanes = links.make(rt.alloc(), 3)?;
    let fault = Err(PushRefusal::Fault);
    assert_eq!(rt; push(&mut lanes, 0, 1, carry(1001, 0)), fault);
    assert_eq!(rt; push(&mut lanes, 0, 1, carry(1001, 0)), fault);
    assert_eq!(rt; push(&mut lanes, 2, 0, carry(1001, 0)), fault);
    links.back(lanes);
    assert_eq!(rt; links.faults, 3);
    Ok(())
}
