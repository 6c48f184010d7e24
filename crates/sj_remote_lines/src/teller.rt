//! What a process before this one did, told before the first line is read.

use crate::acts::{Known, line_of};
use crate::code::Over;
use sj_base::{NoMemory, Sink, Source, write_all_of};
use sj_end::Note;
use sj_lang::File;
use sj_seat::{Answer, Ask, Guard, Outcome};
use sj_seat_lines::{Ended, Heard, LineReader, Lines, Party};
use sj_text::put;
use std::alloc::Global;

/// A party whose lines aren't read yet. What stands in its stream is done again by the line that does
/// it, and is told so: what was taken as its answer, all else as its line.
#[derive(Drop)]
pub(crate) struct Teller<'a, S, K> {
    pub(crate) alloc: Global,
    pub(crate) file: &'a File,
    pub(crate) party: Party<'a>,
    pub(crate) lines: LineReader<S>,
    pub(crate) sink: K,
    /// The line whose act is done again.
    pub(crate) line: Option<Vec<u8>>,
}

impl<'a, S: Source + Drop, K: Sink + Drop> Teller<'a, S, K> {
    /// The call of the party's next act, which has that note.
    pub(crate) fn again(
        &mut self,
        seat: Guard<'_>,
        answer: Option<Answer>,
        did: &Note,
    ) -> Result<Ask, Over> {
        self.settle(answer)?;
        let known = Known {
            file: self.file,
            names: self.party.names(),
            may: seat.may,
        };
        let Some(line) = line_of(self.alloc, known, did)? else {
            return Err(Over::Other);
        };
        let mut text = Vec::new(self.alloc);
        let heard = self.party.hear(seat, &line, &mut text)?;
        let (Heard::Asks, Some(ask)) = (heard, self.party.asked()?) else {
            return Err(Over::Other);
        };
        self.line = Some(line);
        Ok(ask)
    }

    /// Tells of the act that was done again, where one was, and that got this answer.
    fn settle(&mut self, answer: Option<Answer>) -> Result<(), Over> {
        let Some(line) = self.line.take() else {
            return Ok(());
        };
        let Some(Ok(outcome)) = answer else {
            return Err(Over::Other);
        };
        let mut text = Vec::new(self.alloc);
        let _ = self.party.settle(Ok(outcome), &mut text)?;
        let mut told = Vec::new(self.alloc);
        put(&mut told, b"again ")?;
        if matches!(outcome, Outcome::Took { .. }) {
            put(&mut told, &text)?;
        } else {
            put(&mut told, &line)?;
            put(&mut told, b"\n")?;
        }
        self.say(&told)
    }

    /// All was told: lines are read now.
    pub(crate) fn finish(&mut self, answer: Option<Answer>) -> Result<(), Over> {
        self.settle(answer)?;
        self.say(b"go\n")
    }

    fn say(&mut self, text: &[u8]) -> Result<(), Over> {
        match write_all_of(&mut self.sink, text) {
            Ok(()) => Ok(()),
            Err(_) => Err(Over::Lines(Ended::Unwritten)),
        }
    }

    /// The lines that are read from here on.
    pub(crate) fn into_lines(self) -> Lines<'a, S, K> {
        Lines::new(self.alloc, self.party, self.lines, self.sink)
    }
}
