//! The lane on which a party pushes frames that go as bytes.
ghost use Rattle.std.specs.Prelude.{◌≡◌, ◌≤◌, ◌++◌, ◌↔◌, [], ◌∷◌, IfErr, IfOk, IsTrue, OnErr, OnOk, Some};
ghost use Rattle.std.specs.List.{AllByRecursion, flat_map};
ghost use Rattle.sj_engine.specs.Lanes.{CanBeSpelt, frame_text, pushed_on};
ghost use Rattle.sj_lane.specs.Told.{PushCause, pushed_by, told_frame, told_more, vain_push};
ghost use Rattle.sj_wire.specs.Spelling.{spelling};

use crate::SpellRefusal;
use sj_end::Frame;
use sj_lane::{OutLane, PushRefusal};
use sj_wire::{EncodeRefusal, encode, is_lawful};
use std::alloc::Global;

/// The frames that were pushed since the lane was cleared. They are spelt once the party must wait.
#[derive(Drop)]
pub struct ByteOut {
    pub(crate) frames: Vec<Frame>,
}

impl ByteOut {
    /// A lane on which nothing was pushed.
    pub fn new(alloc: Global) -> ByteOut
        ensures { pushed_on result ≡ [] }
    {
        ByteOut {
            frames: Vec::new(alloc),
        }
    }

    /// Whether nothing was pushed since the last `clear`.
    pub fn is_empty(&self) -> bool
        ensures { IsTrue result ↔ (pushed_on self.now ≡ []) }
    {
        self.frames.len() == 0
    }

    /// Puts the spellings of the frames after the text, in order. A refusal may leave some of them.
    pub fn spell(&self, text: &mut Vec<u8>) -> Result<(), SpellRefusal>
        ensures ok { OnOk result
            (text.new.items ≡ text.old.items ++ flat_map spelling (pushed_on self.now)) }
        ensures unlawful { IfErr result
            (λ e. e ≡ SpellRefusal.Unlawful → AllByRecursion CanBeSpelt (pushed_on self.now) → ⊥) }
    {
        put_frames(text, &self.frames)
    }

    /// Forgets the frames, once something else carries them.
    pub fn clear(&mut self)
        ensures { pushed_on self.new ≡ [] }
    {
        self.frames.clear();
    }
}

/// Appends the spelling of a frame.
fn put_frame(text: &mut Vec<u8>, frame: &Frame) -> Result<(), SpellRefusal>
    ensures ok { OnOk result (text.new.items ≡ text.old.items ++ frame_text frame.now) }
    ensures unlawful { IfErr result
        (λ e. e ≡ SpellRefusal.Unlawful → CanBeSpelt (told_frame frame.now) → ⊥) }
{
    if !is_lawful(frame) {
        return Err(SpellRefusal::Unlawful);
    }
    match encode(*text.allocator(), frame) {
        Ok(bytes) => Ok(text.extend_from_slice(&bytes)?),
        Err(EncodeRefusal::TooLong) => Err(SpellRefusal::Unlawful),
        Err(EncodeRefusal::NoMemory) => Err(SpellRefusal::NoMemory),
    }
}

/// Appends the spellings of frames.
fn put_frames(text: &mut Vec<u8>, frames: &[Frame]) -> Result<(), SpellRefusal>
    ensures ok { OnOk result (text.new.items ≡ text.old.items ++ flat_map frame_text frames.now) }
    ensures unlawful { IfErr result (λ e. e ≡ SpellRefusal.Unlawful →
        AllByRecursion (λ f. CanBeSpelt (told_frame f)) frames.now → ⊥) }
{
    for frame in frames {
        if let Err(e) = put_frame(text, frame) {
            return Err(e);
        }
    }
    Ok(())
}

impl OutLane for ByteOut {
    ghost pushed = { λ o. Some (pushed_on o) };

    ghost faults = { λ _. 0 };

    ghost vain = { λ _. 0 };

    ghost same = { λ _ _. Unit {0} };

    // The trait's clauses, and that memory alone refuses.
    fn push(&mut self, frame: Frame) -> Result<(), (Frame, PushRefusal)>
        ensures told { Some (pushed_on self.new) ≡ told_more (Some (pushed_on self.old)) (pushed_by frame result) }
        ensures vain { 0 ≡ vain_push 0 result }
        ensures faults { (0 ≤ 0) × PushCause 0 0 result }
        ensures back { IfErr result (λ e. e.0 ≡ frame) }
        ensures link { Unit {0} }
        ensures memory { IfErr result (λ e. e.1 ≡ PushRefusal.NoMemory) }
    {
        if self.frames.reserve(1).is_err() {
            return Err((frame, PushRefusal::NoMemory));
        }
        self.frames.push_reserved(frame);
        Ok(())
    }

    ghost same_itself = { λ _. tt };

    ghost same_later = { λ _ _ _ _ _. tt };
}
