//! A piece of a stream.
ghost use Rattle.std.specs.Prelude.{◌≡◌, ◌≤◌, ◌++◌, [], ℕ, List, length, take, IfErr, OnOk};
ghost use Rattle.std.specs.Io.KnownBytes.{Consumes};

use crate::stream::is_in_vain;
use sj_base::NoMemory;
use sj_lane::PopRefusal;
use sj_wire::Decoder;
use std::io::Read;
use std::marker::Model;

/// The bytes that came of a stream and aren't fed to its decoder yet.
#[derive(Drop)]
pub(crate) struct Piece {
    /// Where the stream is read into.
    room: Vec<u8>,
    /// So many bytes of it came.
    came: usize,
}

impl Model for Piece {
    ghost Value = { List ℕ };

    ghost view = { λ p. take p.came p.room.items };

    ghost invariant = { λ p. p.came ≤ length p.room.items };
}

impl Piece {
    /// One that is read into so much room.
    pub(crate) fn new(room: Vec<u8>) -> Piece
        ensures { result ≡ [] }
    {
        Piece { room, came: 0 }
    }

    /// Reads a piece of the stream, if one is there and none is left. The end of the stream is a fault.
    pub(crate) fn read<R: Read>(&mut self, stream: &mut R) -> Result<(), PopRefusal>
        ensures came { (came : List ℕ) × (self.new ≡ self.old ++ came)
            × Consumes (R.remaining stream.old) (R.remaining stream.new) came }
        ensures err { IfErr result (λ e. self.old ≡ []) }
    {
        if self.came > 0 {
            return Ok(());
        }
        match stream.read(&mut self.room) {
            Ok(0) => Err(PopRefusal::Fault),
            Ok(count) => {
                self.came = count;
                Ok(())
            }
            Err(error) => {
                if is_in_vain(&error) {
                    Ok(())
                } else {
                    Err(PopRefusal::Fault)
                }
            }
        }
    }

    /// Feeds what was read, or nothing where memory is short.
    pub(crate) fn feed(&mut self, decoder: &mut Decoder) -> Result<(), NoMemory>
        ensures bytes { decoder.new ++ self.new ≡ decoder.old ++ self.old }
        ensures all { OnOk result (self.new ≡ []) }
    {
        match decoder.feed(&self.room[..self.came]) {
            Ok(()) => {
                self.came = 0;
                Ok(())
            }
            Err(NoMemory) => Err(NoMemory),
        }
    }
}
