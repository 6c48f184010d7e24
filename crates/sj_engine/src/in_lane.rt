//! The lane from which a party pops frames that came as bytes.
ghost use Rattle.std.specs.Prelude.{◌≡◌, ◌<◌, ◌≤◌, ◌++◌, List, [], drop, length, take, vec_items, vec_len, IfErr, IfNone, IfOk, IfSome, IsFalse, OnErr, OnOk, Some, ℕ};
ghost use Rattle.std.specs.List.{flat_map};
ghost use Rattle.sj_end.specs.Views.{frame_at};
ghost use Rattle.sj_engine.specs.Frames.{IsBroken, UsesOne, frames_in, rest_in};
ghost use Rattle.sj_lane.specs.Told.{PopCause, popped_by, told_more, vain_pop};
ghost use Rattle.sj_rules.specs.Frames.{FrameAt};
ghost use Rattle.sj_table.specs.declared.table.Spot.{Spot};
ghost use Rattle.sj_wire.specs.Front.{Cut, Whole, front_of};
ghost use Rattle.sj_wire.specs.Spelling.{spelling};

use byteorder::{BigEndian, ByteOrder};
use sj_base::NoMemory;
use sj_end::Frame;
use sj_lane::{InLane, PopRefusal};
use sj_wire::{Decoder, WireRefusal};
use std::alloc::Global;

/// Bytes that came, one frame's spelling after the other, and how many of them frames have used up.
/// The decoder has those that are left.
#[derive(Drop)]
pub struct ByteIn {
    pub(crate) bytes: Vec<u8>,
    pub(crate) used: usize,
    pub(crate) decoder: Decoder,
    pub(crate) faults: u64,
    pub(crate) vain: u64,
    ghost within: { used ≤ vec_len bytes },
    ghost left: { decoder ≡ drop used (vec_items bytes) },
    ghost broken: { 0 < faults → IsBroken decoder },
    ghost whole: { rest_in (take used (vec_items bytes)) ≡ [] },
    ghost spelt: { take used (vec_items bytes) ≡ flat_map spelling (frames_in (take used (vec_items bytes))) },
}

impl ByteIn {
    /// A lane to which nothing came.
    pub fn new(alloc: Global) -> ByteIn
        ensures empty { result.decoder ≡ [] }
        ensures faults { result.faults ≡ 0 }
        ensures vain { result.vain ≡ 0 }
    {
        ByteIn {
            bytes: Vec::new(alloc),
            used: 0,
            decoder: Decoder::new(alloc),
            faults: 0,
            vain: 0,
        }
    }

    /// Puts these bytes after those that came before. Out of memory changes nothing.
    pub fn feed(&mut self, bytes: &[u8]) -> Result<(), NoMemory>
        ensures ok { OnOk result (self.new.decoder ≡ self.old.decoder ++ bytes.now) }
        ensures err { OnErr result (self.new.decoder ≡ self.old.decoder) }
        ensures faults { self.new.faults ≡ self.old.faults }
        ensures vain { self.new.vain ≡ self.old.vain }
    {
        self.forget();
        let end = self.bytes.len();
        self.bytes.extend_from_slice(bytes)?;
        if self.decoder.feed(bytes).is_err() {
            self.bytes.truncate(end);
            return Err(NoMemory);
        }
        Ok(())
    }

    /// Drops the bytes that are used up where they are more than the others, so that no more bytes
    /// are moved than were used up.
    fn forget(&mut self)
        ensures decoder { self.new.decoder ≡ self.old.decoder }
        ensures faults { self.new.faults ≡ self.old.faults }
        ensures vain { self.new.vain ≡ self.old.vain }
    {
        if self.used > self.bytes.len() - self.used {
            let left = self.bytes.len() - self.used;
            self.bytes.copy_within(self.used.., 0);
            self.bytes.truncate(left);
            self.used = 0;
        }
    }
}

/// How many bytes the frame takes that comes after the used ones, where one is there.
fn front_size(bytes: &[u8], used: usize) -> usize
    requires within { used ≤ length bytes.now }
    requires whole { rest_in (take used bytes.now) ≡ [] }
    requires spelt { take used bytes.now ≡ flat_map spelling (frames_in (take used bytes.now)) }
    ensures { (f : FrameAt Spot) (rest : List ℕ) →
        front_of (drop used bytes.now) ≡ Whole f rest → UsesOne bytes.now used result f rest }
{
    let left = &bytes[used..];
    if left.len() < 4 {
        return 0;
    }
    4 + BigEndian::read_u32(left) as usize
}

/// Whether memory alone refused it.
fn lacks_memory(refusal: WireRefusal) -> bool
    ensures { IsFalse result → refusal ≡ WireRefusal.NoMemory → ⊥ }
{
    matches!(refusal, WireRefusal::NoMemory)
}

impl InLane for ByteIn {
    ghost use Rattle.sj_engine.specs.Lanes.{SameIn, in_itself, in_later, popped_on};

    ghost popped = { λ i. Some (popped_on i) };

    ghost faults = { λ i. i.faults };

    ghost vain = { λ i. i.vain };

    ghost same = { SameIn };

    // The trait's clauses, which frame comes, and what stays.
    fn pop(&mut self) -> Result<Option<Frame>, PopRefusal>
        ensures told { Some (popped_on self.new) ≡ told_more (Some (popped_on self.old)) (popped_by result) }
        ensures vain { self.new.vain ≡ vain_pop self.old.vain result }
        ensures faults { (self.old.faults ≤ self.new.faults)
            × PopCause self.old.faults self.new.faults result }
        ensures link { SameIn self.old self.new }
        ensures frame { IfOk result
            (λ x. IfSome x (λ f. front_of self.old.decoder ≡ Whole (frame_at f) self.new.decoder)) }
        ensures none { IfOk result
            (λ x. IfNone x ((front_of self.old.decoder ≡ Cut) × (self.new.decoder ≡ self.old.decoder))) }
        ensures err { OnErr result (self.new.decoder ≡ self.old.decoder) }
        ensures broken { IfErr result (λ e. e ≡ PopRefusal.Fault → IsBroken self.old.decoder) }
    {
        let size = front_size(&self.bytes, self.used);
        match self.decoder.next() {
            Ok(Some(frame)) => {
                self.used += size;
                Ok(Some(frame))
            }
            Ok(None) => {
                self.vain = self.vain.saturating_add(1);
                Ok(None)
            }
            Err(refusal) => {
                if lacks_memory(refusal) {
                    return Err(PopRefusal::NoMemory);
                }
                self.faults = self.faults.saturating_add(1);
                Err(PopRefusal::Fault)
            }
        }
    }

    ghost same_itself = { in_itself };

    ghost same_later = { in_later };
}
