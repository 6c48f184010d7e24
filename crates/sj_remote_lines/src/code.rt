//! Lines as the code of a party over a server.
ghost use Rattle.std.specs.Prelude.{⊤};

use crate::teller::Teller;
use sj_base::{NoMemory, Sink, Source};
use sj_check::Accepted;
use sj_end::Note;
use sj_remote_seat::Code;
use sj_seat::{Answer, Ask, Guard};
use sj_seat_lines::{Ended, LineReader, Lines, Party, first_names};
use sj_seat_texts::Texts;
use std::alloc::Global;

/// Why no further line is read.
#[derive(Clone, Copy, Debug, PartialEq, Eq)]
pub enum Over {
    Lines(Ended),
    /// What stands in the party's stream is no act of lines.
    Other,
}

impl From<NoMemory> for Over {
    fn from(_: NoMemory) -> Self {
        Over::Lines(Ended::NoMemory)
    }
}

/// Code that goes by lines. It tells what the party did before, and then reads lines and answers each.
#[derive(Drop)]
pub struct ByLines<'a, S, K> {
    /// Before the first line.
    teller: Option<Teller<'a, S, K>>,
    /// From there on.
    lines: Option<Lines<'a, S, K>>,
    over: Option<Over>,
}

/// What lines leave: why no further one is read, if none is, and where the answers went.
#[derive(Drop)]
pub struct Left<K> {
    pub over: Option<Over>,
    pub sink: Option<K>,
}

impl<'a, S: Source + Drop, K: Sink + Drop> ByLines<'a, S, K> {
    /// The code of that party, by the lines that are read there; the answers go there. A call that waits
    /// is asked for so often again.
    pub fn new(
        alloc: Global,
        accepted: &'a Accepted,
        party: u16,
        patience: u32,
        lines: LineReader<S>,
        sink: K,
    ) -> Result<ByLines<'a, S, K>, NoMemory> {
        let file = accepted.file();
        let texts = Texts::of(alloc, &file.names.texts)?;
        let names = first_names(alloc, file, party)?;
        let party = Party::new(alloc, file, texts, names, patience);
        let teller = Teller {
            alloc,
            file,
            party,
            lines,
            sink,
            line: None,
        };
        Ok(ByLines {
            teller: Some(teller),
            lines: None,
            over: None,
        })
    }

    /// What the lines leave.
    pub fn into_left(self) -> Left<K> {
        match (self.teller, self.lines) {
            (Some(teller), _) => Left {
                over: self.over,
                sink: Some(teller.sink),
            },
            (None, Some(lines)) => {
                let left = lines.into_left();
                Left {
                    over: left.ended.map(Over::Lines),
                    sink: Some(left.sink),
                }
            }
            (None, None) => Left {
                over: self.over,
                sink: None,
            },
        }
    }

    /// All was told that the party did before: lines are read from here on.
    fn set_off(&mut self, answer: Option<Answer>) -> Result<(), Over> {
        if let Some(teller) = &mut self.teller {
            teller.finish(answer)?;
        }
        if let Some(teller) = self.teller.take() {
            self.lines = Some(teller.into_lines());
        }
        Ok(())
    }

    fn go_on(&mut self, seat: Guard<'_>, answer: Option<Answer>) -> Result<Option<Ask>, Over> {
        if let Some(lines) = &mut self.lines {
            return Ok(lines.next(seat, answer));
        }
        self.set_off(answer)?;
        match &mut self.lines {
            Some(lines) => Ok(lines.next(seat, None)),
            None => Ok(None),
        }
    }

    fn act_again(
        &mut self,
        seat: Guard<'_>,
        answer: Option<Answer>,
        did: &Note,
    ) -> Result<Ask, Over> {
        match &mut self.teller {
            Some(teller) => teller.again(seat, answer, did),
            None => Err(Over::Other),
        }
    }
}

impl<S: Source + Drop, K: Sink + Drop> Code for ByLines<'_, S, K> {
    ghost step = { λ _ _. ⊤ };

    fn next(&mut self, seat: Guard<'_>, answer: Option<Answer>) -> Option<Ask> {
        match self.go_on(seat, answer) {
            Ok(ask) => ask,
            Err(over) => {
                self.over = Some(over);
                None
            }
        }
    }

    fn again(&mut self, seat: Guard<'_>, answer: Option<Answer>, did: &Note) -> Option<Ask> {
        match self.act_again(seat, answer, did) {
            Ok(ask) => Some(ask),
            Err(over) => {
                self.over = Some(over);
                None
            }
        }
    }

    fn is_live(&self) -> bool {
        true
    }
}
