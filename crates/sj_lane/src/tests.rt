//! Frames over rings and over lists in memory.
ghost use Rattle.std.specs.Prelude.{◌≡◌, ◌<◌, vec_len};
ghost use Rattle.sj_lane.specs.Mem.{IsCarried};
ghost use Rattle.sj_lane.specs.Square.{AllJoined, IsSquare};

use crate::{InLane, Lanes, Links, MemIn, MemLinks, MemOut, OutLane, PushRefusal, RingLinks};
use sj_base::{EndId, Msg};
use sj_end::{Body, Frame};
use std::test::Fail;

/// The end of session 0 on that side.
fn end(side: u8) -> EndId {
    EndId { sess: 0, side }
}

/// The Fin that says that so many messages were sent to that side.
fn fin(clock: u64, side: u8, number: u32) -> Frame {
    Frame {
        clock,
        body: Body::Fin {
            to: end(side),
            conn: 0,
            number,
        },
    }
}

/// The clock of a frame, and the number of the message in it, or so many messages as it says, or
/// the session that it opens.
fn shown(frame: Frame) -> (u64, u32) {
    let number = match frame.body {
        Body::Carry { number, .. } => number,
        Body::Fin { number, .. } => number,
        Body::Open { sess } => sess,
        _ => 99,
    };
    (frame.clock, number)
}

/// Pushes the frame on the lane from one party to the other.
fn push(
    lanes: &mut Vec<Lanes<MemOut, MemIn>>,
    from: usize,
    to: usize,
    frame: Frame,
) -> Result<(), PushRefusal>
    requires from { from < vec_len lanes.old }
    requires to { to < vec_len lanes.old }
    requires square { IsSquare lanes.old.items }
    requires joined { AllJoined IsCarried lanes.old.items }
    ensures size { vec_len lanes.new ≡ vec_len lanes.old }
    ensures square { IsSquare lanes.new.items }
    ensures joined { AllJoined IsCarried lanes.new.items }
{
    match lanes[from].outs[to].push(frame) {
        Ok(()) => Ok(()),
        Err((_, why)) => Err(why),
    }
}

#[test]
fn a_ring_of_64_frames_is_full_and_gives_them_back_in_order(rt: HostRuntime) -> Result<(), Fail> {
    let mut links = RingLinks::new();
    let mut lanes = links.make(rt.alloc(), 2)?;
    let first = lanes.get_mut(0).ok_or("no party")?;
    let out = first.outs.get_mut(1).ok_or("no lane")?;
    for number in 0..64u32 {
        assert!(rt;
            out.push(fin(1, 1, number)).is_ok(),
            "frame {number} isn't taken"
        );
    }
    let refused = out
        .push(fin(2, 1, 64))
        .map_err(|(frame, why)| (shown(frame), why));
    assert_eq!(rt; refused, Err(((2, 64), PushRefusal::Full)));
    let second = lanes.get_mut(1).ok_or("no party")?;
    let lane = second.ins.get_mut(0).ok_or("no lane")?;
    for number in 0..64u32 {
        assert_eq!(rt; lane.pop()?.map(shown), Some((1, number)));
    }
    assert_eq!(rt; lane.pop()?.map(shown), None);
    Ok(())
}

#[test]
fn the_greeting_comes_with_the_carry_in_order(rt: HostRuntime) -> Result<(), Fail> {
    let mut links = MemLinks::new();
    let mut lanes = links.make(rt.alloc(), 2)?;
    let carry = Frame {
        clock: 1,
        body: Body::Carry {
            to: end(1),
            conn: 0,
            number: 0,
            taken: 0,
            msg: Msg::Int(5),
        },
    };
    push(&mut lanes, 0, 1, carry)?;
    push(&mut lanes, 0, 1, fin(2, 1, 1))?;
    links.carry(&mut lanes)?;
    let second = lanes.get_mut(1).ok_or("no party")?;
    let late = second.outs.get_mut(0).ok_or("no lane")?;
    assert!(rt; late.push(fin(5, 0, 0)).is_ok());
    let lane = second.ins.get_mut(0).ok_or("no lane")?;
    assert_eq!(rt; lane.pop()?.map(shown), Some((1, 0)));
    assert_eq!(rt; lane.pop()?.map(shown), Some((2, 1)));
    assert_eq!(rt; lane.pop()?.map(shown), None);
    let first = lanes.get_mut(0).ok_or("no party")?;
    let lane = first.ins.get_mut(1).ok_or("no lane")?;
    assert_eq!(rt;
        lane.pop()?.map(shown),
        None,
        "nothing was carried to the first party"
    );
    Ok(())
}

#[test]
fn an_open_is_carried_with_its_session(rt: HostRuntime) -> Result<(), Fail> {
    let mut links = MemLinks::new();
    let mut lanes = links.make(rt.alloc(), 2)?;
    let opening = Frame {
        clock: 1,
        body: Body::Open { sess: 64 },
    };
    push(&mut lanes, 0, 1, opening)?;
    links.carry(&mut lanes)?;
    let second = lanes.get_mut(1).ok_or("no party")?;
    let lane = second.ins.get_mut(0).ok_or("no lane")?;
    assert_eq!(rt; lane.pop()?.map(shown), Some((1, 64)));
    Ok(())
}
