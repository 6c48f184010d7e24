//! Lines of a source, as they come.
#![tactic(auto, using(sj_base::proofs::PieceLemmas::whole))]

ghost use Rattle.std.specs.Prelude.{◌≡◌, ◌∷◌, ◌<◌, ◌≤◌, [], IfOk, OnOk, length};
ghost use Rattle.sj_base.specs.Stream.{put_before};
ghost use Rattle.sj_seat_lines.specs.Reading.{Brings, BringsEnd, EndsWith, HasBytes, Reads, Refills, RefillsEnd, has_ended, left_of, reader_at, reader_from, with_byte};

use sj_base::{NoMemory, Source};
use std::alloc::Global;

/// Lines of a source, one after another, each as soon as it is there whole.
#[derive(Drop)]
pub struct LineReader<S> {
    alloc: Global,
    src: S,
    came: Vec<u8>,
    at: usize,
}

/// What stands next in a source.
#[derive(Drop)]
pub enum Next {
    Line(Vec<u8>),
    /// The source has ended.
    End,
    /// A read failed.
    Failed,
}

/// The byte that stands next in a source.
#[derive(Clone, Copy, Drop)]
pub(crate) enum Byte {
    Is(u8),
    End,
    Failed,
}

/// What a read brings.
#[derive(Clone, Copy, Drop)]
pub(crate) enum Came {
    Bytes,
    Nothing,
    Failed,
}

impl<S: Source> LineReader<S> {
    /// The lines of the source.
    pub fn new(alloc: Global, src: S) -> LineReader<S>
        ensures { reader_at S.left S.faults result ≡ reader_from (S.left src) (S.faults src) }
    {
        LineReader {
            alloc,
            src,
            came: Vec::new(alloc),
            at: 0,
        }
    }

    /// The next line, without its newline, and without what it has beyond so many bytes. A last line
    /// may stand without its newline. Where nothing is left the source has ended.
    pub fn next(&mut self, most: usize) -> Result<Next, NoMemory>
        ensures read { IfOk result (λ n. Reads most (reader_at S.left S.faults self.old) n
            (reader_at S.left S.faults self.new)) }
        ensures end { IfOk result (λ n. EndsWith n (has_ended S.has_ended self.new)) }
    {
        let mut line = Vec::new(self.alloc);
        let mut begun = false;
        for _ in 0..usize::MAX {
            match self.next_byte()? {
                Byte::Is(byte) => {
                    if byte == b'\n' {
                        return Ok(Next::Line(line));
                    }
                    put_byte(&mut line, byte, most)?;
                    begun = true;
                }
                Byte::End if begun => return Ok(Next::Line(line)),
                Byte::End => return Ok(Next::End),
                Byte::Failed => return Ok(Next::Failed),
            }
        }
        // No memory holds so many bytes.
        Err(NoMemory)
    }

    // The next byte, which is read where none is there.
    fn next_byte(&mut self) -> Result<Byte, NoMemory>
        ensures read { IfOk result (λ b. Brings b (reader_at S.left S.faults self.old)
            (reader_at S.left S.faults self.new)) }
        ensures end { IfOk result (λ b. BringsEnd b (has_ended S.has_ended self.new)) }
    {
        if self.at < self.came.len() {
            return Ok(Byte::Is(self.take_byte()));
        }
        match self.refill()? {
            Came::Bytes => Ok(Byte::Is(self.take_byte())),
            Came::Nothing => Ok(Byte::End),
            Came::Failed => Ok(Byte::Failed),
        }
    }

    // The next of the bytes that came.
    fn take_byte(&mut self) -> u8
        requires { self.old.at < length self.old.came.items }
        ensures read { left_of S.left self.old ≡ put_before (result ∷ []) (left_of S.left self.new) }
        ensures src { self.new.src ≡ self.old.src }
    {
        let byte = self.came[self.at];
        self.at += 1;
        byte
    }

    // Reads what is there, where all was taken that had come.
    fn refill(&mut self) -> Result<Came, NoMemory>
        requires { length self.old.came.items ≤ self.old.at }
        ensures read { IfOk result (λ c. Refills c (reader_at S.left S.faults self.old)
            (reader_at S.left S.faults self.new)) }
        ensures some { IfOk result (λ c. HasBytes c self.new.at self.new.came.items) }
        ensures end { IfOk result (λ c. RefillsEnd c (has_ended S.has_ended self.new)) }
    {
        let mut buf = [0u8; 4096];
        match self.src.read(&mut buf) {
            Ok(0) => Ok(Came::Nothing),
            Ok(n) => {
                let mut came = Vec::new(self.alloc);
                came.extend_from_slice(&buf[..n])?;
                self.came = came;
                self.at = 0;
                Ok(Came::Bytes)
            }
            Err(_) => Ok(Came::Failed),
        }
    }
}

// Puts the byte on the line, which has no more than so many.
fn put_byte(line: &mut Vec<u8>, byte: u8, most: usize) -> Result<(), NoMemory>
    ensures { OnOk result (line.new.items ≡ with_byte most line.old.items byte) }
{
    if line.len() < most {
        line.push(byte)?;
    }
    Ok(())
}
