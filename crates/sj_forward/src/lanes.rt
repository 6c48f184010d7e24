//! The lanes from a party: what it has sent and the others haven't got, for each party to which it
//! goes.
ghost use Rattle.std.specs.Prelude.{◌≡◌, ◌==◌, ◌<◌, ◌≤◌, ◌∷◌, ◌++◌, ◌-◌, [], ℕ, if◌then◌else◌, OnOk, length, map, option_map, slice_get};
ghost use Rattle.std.specs.VecDeque.{deque_len, deque_capacity};
ghost use Rattle.sj_forward.specs.Outs.{DropsFront, inward, lane_in, room_in};
ghost use Rattle.sj_forward.specs.Views.{frame_at, sent_at};

use crate::frame::{ForwardFrame, Sent};
use sj_base::{EndId, NoMemory};
use std::alloc::Global;
use std::collections::VecDeque;

/// Takes the room for so many frames more to that party.
pub(crate) fn make_room(
    alloc: Global,
    outs: &mut Vec<VecDeque<ForwardFrame>>,
    to: u16,
    frames: usize,
) -> Result<(), NoMemory>
    ensures same { (q : ℕ) → lane_in outs.new.items q ≡ lane_in outs.old.items q }
    ensures room { OnOk result (frames ≤ room_in outs.new.items to) }
    ensures there { OnOk result (to < length outs.new.items) }
{
    while outs.len() <= to as usize {
        outs.push(VecDeque::new(alloc))?;
    }
    let out = &mut outs[to as usize];
    out.reserve(frames)?;
    Ok(())
}

/// Puts a frame after those that go to that party. The room is there.
pub(crate) fn put_frame(outs: &mut Vec<VecDeque<ForwardFrame>>, to: u16, frame: ForwardFrame)
    requires { 0 < room_in outs.old.items to }
    ensures { (q : ℕ) → lane_in outs.new.items q ≡ (if q == to
        then lane_in outs.old.items q ++ frame_at frame ∷ [] else lane_in outs.old.items q) }
{
    let out = &mut outs[to as usize];
    out.push_back_reserved(frame);
}

/// Puts messages for a record of the end after what goes to that party. The room is there.
pub(crate) fn put_all(
    outs: &mut Vec<VecDeque<ForwardFrame>>,
    to: u16,
    end: EndId,
    hop: usize,
    messages: VecDeque<Sent>,
)
    requires there { to < length outs.old.items }
    requires room { length messages.items ≤ room_in outs.old.items to }
    ensures { (q : ℕ) → lane_in outs.new.items q ≡ (if q == to
        then lane_in outs.old.items q ++ inward end hop (map sent_at messages.items)
        else lane_in outs.old.items q) }
{
    let out = &mut outs[to as usize];
    put_behind(out, end, hop, messages);
}

fn put_behind(out: &mut VecDeque<ForwardFrame>, end: EndId, hop: usize, messages: VecDeque<Sent>)
    requires { length messages.items ≤ deque_capacity out.old - deque_len out.old }
    ensures { map frame_at out.new.items
        ≡ map frame_at out.old.items ++ inward end hop (map sent_at messages.items) }
{
    let mut messages = messages;
    while let Some(sent) = messages.pop_front() {
        out.push_back_reserved(ForwardFrame::In { to: end, hop, sent });
    }
}

/// The first frame to that party.
pub(crate) fn front_of(outs: &[VecDeque<ForwardFrame>], to: u16) -> Option<ForwardFrame>
    ensures { option_map frame_at result ≡ slice_get (lane_in outs.now to) 0 }
{
    if to as usize >= outs.len() {
        return None;
    }
    let out = &outs[to as usize];
    out.front().copied()
}

/// The first frame to that party has come there.
pub(crate) fn drop_front(outs: &mut Vec<VecDeque<ForwardFrame>>, to: u16)
    requires { 0 < length (lane_in outs.old.items to) }
    ensures { DropsFront outs.old.items to outs.new.items }
{
    let out = &mut outs[to as usize];
    let _front = out.pop_front();
}
