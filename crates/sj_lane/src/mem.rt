//! The two ends of a link in memory, as lanes.
ghost use Rattle.sj_lane.specs.Mem.{out_waits, in_waits};

use crate::lane::{InLane, OutLane, PopRefusal, PushRefusal};
use crate::marks::{FrameFields, mark_of};
use sj_end::Frame;
use std::collections::VecDeque;

/// A lane that keeps the fields of each frame that was pushed, and the frames that weren't carried
/// yet.
#[derive(Drop)]
pub struct MemOut {
    pub(crate) pushed: Vec<FrameFields>,
    pub(crate) waiting: VecDeque<Frame>,
    pub(crate) vain: u64,
}

/// A lane that keeps the fields of each frame that was popped, and the frames that were carried to
/// it.
#[derive(Drop)]
pub struct MemIn {
    pub(crate) popped: Vec<FrameFields>,
    pub(crate) waiting: VecDeque<Frame>,
    pub(crate) vain: u64,
}

impl OutLane for MemOut {
    ghost use Rattle.std.specs.Prelude.{◌≡◌, ◌≤◌, ◌∷◌, ◌++◌, [], IfErr, OnOk};
    ghost use Rattle.sj_lane.specs.Mem.{SameOut, frames_pushed};
    ghost use Rattle.sj_lane.specs.MemLaws.{out_itself, out_later};
    ghost use Rattle.sj_lane.specs.Told.{PushCause, pushed_by, told_more, vain_push};

    ghost pushed = { frames_pushed };

    ghost faults = { λ _. 0 };

    ghost vain = { λ o. o.vain };

    ghost same = { SameOut };

    // The trait's clauses, and that memory alone refuses.
    fn push(&mut self, frame: Frame) -> Result<(), (Frame, PushRefusal)>
        ensures told { frames_pushed self.new ≡ told_more (frames_pushed self.old) (pushed_by frame result) }
        ensures vain { self.new.vain ≡ vain_push self.old.vain result }
        ensures faults { (0 ≤ 0) × PushCause 0 0 result }
        ensures back { IfErr result (λ e. e.0 ≡ frame) }
        ensures link { SameOut self.old self.new }
        ensures memory { IfErr result (λ e. e.1 ≡ PushRefusal.NoMemory) }
        ensures waits { OnOk result (out_waits self.new ≡ out_waits self.old ++ frame ∷ []) }
    {
        let Ok(mark) = mark_of(&frame) else {
            return Err((frame, PushRefusal::NoMemory));
        };
        if self.waiting.reserve(1).is_err() {
            return Err((frame, PushRefusal::NoMemory));
        }
        if self.pushed.push(mark).is_err() {
            return Err((frame, PushRefusal::NoMemory));
        }
        self.waiting.push_back_reserved(frame);
        Ok(())
    }

    ghost same_itself = { out_itself };

    ghost same_later = { out_later };
}

impl InLane for MemIn {
    ghost use Rattle.std.specs.Prelude.{◌≡◌, ◌≤◌, ◌++◌, [], None, IfOk, IfErr, option_to_list};
    ghost use Rattle.sj_lane.specs.Mem.{SameIn, frames_popped};
    ghost use Rattle.sj_lane.specs.MemLaws.{in_itself, in_later};
    ghost use Rattle.sj_lane.specs.Told.{PopCause, popped_by, told_more, vain_pop};

    ghost popped = { frames_popped };

    ghost faults = { λ _. 0 };

    ghost vain = { λ i. i.vain };

    ghost same = { SameIn };

    // The trait's clauses, that the first frame that waits comes, and that memory alone refuses.
    fn pop(&mut self) -> Result<Option<Frame>, PopRefusal>
        ensures told { frames_popped self.new ≡ told_more (frames_popped self.old) (popped_by result) }
        ensures vain { self.new.vain ≡ vain_pop self.old.vain result }
        ensures faults { (0 ≤ 0) × PopCause 0 0 result }
        ensures link { SameIn self.old self.new }
        ensures memory { IfErr result (λ e. e ≡ PopRefusal.NoMemory) }
        ensures front { IfOk result (λ o. in_waits self.old ≡ option_to_list o ++ in_waits self.new) }
        ensures none { IfOk result (λ o. o ≡ None → in_waits self.old ≡ []) }
    {
        let Some(frame) = self.waiting.front() else {
            self.vain = self.vain.saturating_add(1);
            return Ok(None);
        };
        let Ok(mark) = mark_of(frame) else {
            return Err(PopRefusal::NoMemory);
        };
        if self.popped.push(mark).is_err() {
            return Err(PopRefusal::NoMemory);
        }
        Ok(self.waiting.pop_front())
    }

    ghost same_itself = { in_itself };

    ghost same_later = { in_later };
}
