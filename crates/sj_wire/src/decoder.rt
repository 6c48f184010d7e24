//! A stream of frames, in whatever pieces it comes.
ghost use Rattle.std.specs.Prelude.{◌≡◌, ◌++◌, ◌≤◌, List, [], ℕ, drop, length, IfErr, IfNone, IfOk, IfSome, OnErr, OnOk};
ghost use Rattle.sj_end.specs.Views.{frame_at};
ghost use Rattle.sj_wire.specs.Front.{Cut, Whole, front_of};
ghost use Rattle.sj_wire.specs.Reads.{IsRefused};

use crate::WireRefusal;
use crate::fronts::front;
use sj_base::NoMemory;
use sj_end::Frame;
use std::alloc::Global;
use std::marker::Model;

/// The bytes that were fed and that no frame has used up yet.
#[derive(Drop)]
pub struct Decoder {
    alloc: Global,
    bytes: Vec<u8>,
    /// How many of them are used up.
    used: usize,
}

impl Model for Decoder {
    ghost Value = { List ℕ };

    ghost view = { λ d. drop d.used d.bytes.items };

    ghost invariant = { λ d. d.used ≤ length d.bytes.items };
}

impl Decoder {
    pub fn new(alloc: Global) -> Decoder
        ensures { result ≡ [] }
    {
        Decoder {
            alloc,
            bytes: Vec::new(alloc),
            used: 0,
        }
    }

    /// Puts a piece of the stream after what came before.
    pub fn feed(&mut self, piece: &[u8]) -> Result<(), NoMemory>
        ensures ok { OnOk result (self.new ≡ self.old ++ piece.now) }
        ensures err { OnErr result (self.new ≡ self.old) }
    {
        self.forget();
        self.bytes.extend_from_slice(piece)?;
        Ok(())
    }

    /// Drops the bytes that are used up where they are more than the others, so that no more bytes
    /// are moved than were used up.
    fn forget(&mut self)
        ensures { self.new ≡ self.old }
    {
        if self.used > self.bytes.len() - self.used {
            let left = self.bytes.len() - self.used;
            self.bytes.copy_within(self.used.., 0);
            self.bytes.truncate(left);
            self.used = 0;
        }
    }

    /// The next frame. `None` is less than a frame, and each refusal leaves all as it was:
    /// what is no frame stays so.
    pub fn next(&mut self) -> Result<Option<Frame>, WireRefusal>
        ensures frame { IfOk result (λ x. IfSome x (λ f. front_of self.old ≡ Whole (frame_at f) self.new)) }
        ensures none { IfOk result (λ x. IfNone x ((front_of self.old ≡ Cut) × (self.new ≡ self.old))) }
        ensures refused { IfErr result (λ e. IsRefused e (front_of self.old)) }
        ensures err { OnErr result (self.new ≡ self.old) }
    {
        match front(self.alloc, &self.bytes[self.used..]) {
            Ok(Some((frame, size))) => {
                self.used += size;
                Ok(Some(frame))
            }
            Ok(None) => Ok(None),
            Err(e) => Err(e),
        }
    }
}
