//! A party's code that reads lines, and writes their answers.
#![tactic(auto, using(sj_base::proofs::PieceLemmas::whole))]

ghost use Rattle.std.specs.Prelude.{◌≡◌, ◌+◌, [], List, ℕ, IfOk, IfSome, None, OnOk, Some, option_map};
ghost use Rattle.sj_seat_lines.specs.Forms.{most_line};
ghost use Rattle.sj_seat_lines.specs.Heard.{came};
ghost use Rattle.sj_seat_lines.specs.Lines.{Goes, GoesOn, IsAnswered, asks_by, ended_of, heard_in, line_heard, lines_at, lines_from};
ghost use Rattle.sj_seat_lines.specs.Party.{ask_at, party_at, seat_at};
ghost use Rattle.sj_seat_lines.specs.Reading.{IsNextLine, left_of};
ghost use Rattle.sj_seat_lines.specs.Settled.{settled_of};

use crate::form::MOST_LINE;
use crate::party::{Heard, Party};
use crate::reader::{LineReader, Next};
use sj_base::{NoMemory, Sink, Source, write_all_of};
use sj_seat::{Answer, Ask, Guard};
use sj_seat_texts::Texts;
use std::alloc::Global;

/// How the lines of a party ended.
#[derive(Clone, Copy, Debug, PartialEq, Eq)]
pub enum Ended {
    /// The lines are over.
    AtEnd,
    /// A line said so.
    Left,
    /// A read failed.
    Unread,
    /// An answer couldn't be written.
    Unwritten,
    /// There was no memory for a line or an answer.
    NoMemory,
}

/// A party's code that reads lines, and answers each by one line as soon as it is done or refused.
#[derive(Drop)]
pub struct Lines<'a, S, K> {
    alloc: Global,
    party: Party<'a>,
    lines: LineReader<S>,
    sink: K,
    ended: Option<Ended>,
}

/// What lines leave: how they ended, the texts of the run, and where the answers went.
#[derive(Drop)]
pub struct Left<K> {
    pub ended: Option<Ended>,
    pub texts: Texts,
    pub sink: K,
}

impl<'a, S: Source + Drop, K: Sink + Drop> Lines<'a, S, K> {
    /// The lines that are read there, of that party; the answers go there.
    pub fn new(alloc: Global, party: Party<'a>, lines: LineReader<S>, sink: K) -> Lines<'a, S, K>
        ensures lines { lines_at S.left K.written result
            ≡ lines_from (party_at party.entry) (left_of S.left lines) (K.written sink) }
        ensures ended { ended_of result ≡ None }
    {
        Lines {
            alloc,
            party,
            lines,
            sink,
            ended: None,
        }
    }

    /// What the lines leave.
    pub fn into_left(self) -> Left<K>
        ensures ended { result.ended ≡ ended_of self.entry }
        ensures texts { result.texts ≡ (lines_at S.left K.written self.entry).party.texts }
        ensures written { K.written result.sink ≡ (lines_at S.left K.written self.entry).written }
    {
        Left {
            ended: self.ended,
            texts: self.party.into_texts(),
            sink: self.sink,
        }
    }

    /// What the party does next, where its last call was answered so: the same call where that waits,
    /// or that of the next line that asks for one. None where the lines are over.
    pub fn next(&mut self, seat: Guard<'_>, answer: Option<Answer>) -> Option<Ask>
        ensures { IfSome result (λ a. GoesOn (seat_at seat.entry) (lines_at S.left K.written self.old)
            answer (Some (ask_at a)) (lines_at S.left K.written self.new)) }
    {
        match self.go_on(seat, answer) {
            Ok(ask) => Some(ask),
            Err(ended) => {
                self.ended = Some(ended);
                None
            }
        }
    }

    fn go_on(&mut self, seat: Guard<'_>, answer: Option<Answer>) -> Result<Ask, Ended>
        ensures { IfOk result (λ a. GoesOn (seat_at seat.entry) (lines_at S.left K.written self.old)
            answer (Some (ask_at a)) (lines_at S.left K.written self.new)) }
    {
        if let Some(answer) = answer {
            if let Some(ask) = self.settle(answer)? {
                return Ok(ask);
            }
        }
        self.read_on(seat)
    }

    // Lines are read until one asks for a call.
    fn read_on(&mut self, seat: Guard<'_>) -> Result<Ask, Ended>
        ensures { IfOk result (λ a. Goes (seat_at seat.entry) (lines_at S.left K.written self.old)
            (Some (ask_at a)) (lines_at S.left K.written self.new)) }
    {
        for _ in 0..u64::MAX {
            match self.read(seat)? {
                Some(ask) => return Ok(ask),
                None => {}
            }
        }
        Err(Ended::AtEnd)
    }

    // What became of the last call is written; the call that is asked for once more.
    fn settle(&mut self, answer: Answer) -> Result<Option<Ask>, Ended>
        ensures lines { OnOk result (lines_at S.left K.written self.new
            ≡ heard_in (lines_at S.left K.written self.old)
            (settled_of (party_at self.old.party) [] answer (party_at self.old.party).pending)) }
        ensures asks { IfOk result (λ a. option_map ask_at a ≡ asks_by
            (settled_of (party_at self.old.party) [] answer (party_at self.old.party).pending)) }
    {
        let mut text = Vec::new(self.alloc);
        match self.party.settle(answer, &mut text) {
            Ok(heard) => self.told(heard, &text),
            Err(NoMemory) => Err(Ended::NoMemory),
        }
    }

    // The next line is read and heard, and its answer written; the call that it asks for.
    fn read(&mut self, seat: Guard<'_>) -> Result<Option<Ask>, Ended>
        ensures { IfOk result (λ a. (line : List ℕ) × IsAnswered (seat_at seat.entry)
            (lines_at S.left K.written self.old) line (option_map ask_at a)
            (lines_at S.left K.written self.new)) }
    {
        let line = self.next_line()?;
        self.answer(seat, &line)
    }

    fn next_line(&mut self) -> Result<Vec<u8>, Ended>
        ensures line { IfOk result (λ line. IsNextLine (most_line + 1) (left_of S.left self.old.lines)
            line.items (left_of S.left self.new.lines)) }
        ensures party { self.new.party ≡ self.old.party }
        ensures sink { self.new.sink ≡ self.old.sink }
    {
        match self.lines.next(MOST_LINE + 1) {
            Ok(Next::Line(line)) => Ok(line),
            Ok(Next::End) => Err(Ended::AtEnd),
            Ok(Next::Failed) => Err(Ended::Unread),
            Err(NoMemory) => Err(Ended::NoMemory),
        }
    }

    // What comes of the line is written; the call that it asks for.
    fn answer(&mut self, seat: Guard<'_>, line: &[u8]) -> Result<Option<Ask>, Ended>
        ensures lines { OnOk result (lines_at S.left K.written self.new
            ≡ heard_in (lines_at S.left K.written self.old)
            (line_heard (party_at self.old.party) (seat_at seat.entry) line.now)) }
        ensures asks { IfOk result (λ a. option_map ask_at a ≡ asks_by
            (line_heard (party_at self.old.party) (seat_at seat.entry) line.now)) }
    {
        let mut text = Vec::new(self.alloc);
        match self.party.hear(seat, line, &mut text) {
            Ok(heard) => self.told(heard, &text),
            Err(NoMemory) => Err(Ended::NoMemory),
        }
    }

    // Writes what came of a line; the call that it asks for.
    fn told(&mut self, heard: Heard, text: &[u8]) -> Result<Option<Ask>, Ended>
        ensures lines { OnOk result (lines_at S.left K.written self.new
            ≡ heard_in (lines_at S.left K.written self.old)
            (came heard text.now (party_at self.old.party))) }
        ensures asks { IfOk result (λ a. option_map ask_at a
            ≡ asks_by (came heard text.now (party_at self.old.party))) }
    {
        if write_all_of(&mut self.sink, text).is_err() {
            return Err(Ended::Unwritten);
        }
        match heard {
            Heard::Asks => match self.party.asked() {
                Ok(ask) => Ok(ask),
                Err(NoMemory) => Err(Ended::NoMemory),
            },
            Heard::Answered => Ok(None),
            Heard::Left => Err(Ended::Left),
        }
    }
}
