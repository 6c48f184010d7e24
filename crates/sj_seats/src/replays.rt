//! Lines that were logged, done again one by one.
ghost use Rattle.std.specs.Prelude.{◌≡◌, ◌<◌, [], IfErr, IfOk, IfSome, IsTrue, OnOk, length, map};
ghost use Rattle.sj_core.specs.Nodes.{ComesFrom};
ghost use Rattle.sj_core.specs.Views.{line_at, line_with};
ghost use Rattle.sj_end.specs.Lines.{note_seen};
ghost use Rattle.sj_seats.specs.Core.{is_seat};
ghost use Rattle.sj_seats.specs.Played.{IsDueFor, IsLed, IsReached, Keeps, Redoes, chairs_in, file_in, history_in, nodes_in, opened_in};
ghost use Rattle.sj_seats.specs.Replaying.{IsFoundHere, IsMisfitFrom, IsMisfitHere};

use crate::played::PlayedWorld;
use sj_base::NoMemory;
use sj_core::{ReplayRefusal, is_the_line};
use sj_end::{Entry, Event, Line, Misfit};

impl PlayedWorld {
    /// Whether the event names parties of the file alone.
    fn is_there(&self, party: u16, event: Event) -> bool
        ensures party { IsTrue result → party < length (nodes_in self.now) }
        ensures origin { IsTrue result → ComesFrom event (length (nodes_in self.now)) }
    {
        if party as usize >= self.nodes.len() {
            return false;
        }
        match event {
            Event::Act => true,
            Event::Deliver(from) => (from as usize) < self.nodes.len(),
        }
    }

    /// Does the event of the line: a delivery, the act of a party that goes by the file, or the call
    /// that the line tells of a code. It isn't listed. Where its note is another one, a session may have
    /// been opened as another protocol than its code did.
    fn happen(&mut self, line: &Line) -> Result<Option<Entry>, NoMemory>
        requires led { IsLed self.old }
        requires there { line.now.party < length (nodes_in self.old) }
        requires origin { ComesFrom line.now.entry.event (length (nodes_in self.old)) }
        ensures done { IfOk result (λ o. IfSome o (λ e. note_seen e.note ≡ note_seen line.now.entry.note →
            Redoes self.old (line_with line.now.party e) self.new)) }
        ensures found { IfOk result (λ o. IfSome o (λ e.
            IsDueFor self.old (line_at line.now) (line_with line.now.party e))) }
    {
        match line.entry.event {
            Event::Deliver(from) => self.deliver(line.party, from),
            Event::Act => {
                if self.chairs[line.party as usize].is_some() {
                    self.call(line.party, line.entry.note)
                } else {
                    self.act(line.party)
                }
            }
        }
    }

    /// Does the event of the line, and answers the line that it made; none where it is illegal. It
    /// isn't listed.
    fn made_line(&mut self, line: &Line) -> Result<Option<Line>, NoMemory>
        requires led { IsLed self.old }
        ensures done { IfOk result (λ o. IfSome o (λ l. l ≡ line.now →
            Redoes self.old (line_at l) self.new)) }
        ensures found { IfOk result (λ o. IfSome o (λ l. IsDueFor self.old (line_at line.now) (line_at l))) }
    {
        if !self.is_there(line.party, line.entry.event) {
            return Ok(None);
        }
        match self.happen(line)? {
            Some(entry) => Ok(Some(Line {
                party: line.party,
                entry,
            })),
            None => Ok(None),
        }
    }

    /// Does the event of the line of that number, and then looks whether it made that line. It isn't
    /// listed. A world in which another line was made is given up.
    fn do_again(&mut self, number: u64, line: &Line) -> Result<(), ReplayRefusal>
        requires led { IsLed self.old }
        ensures ok { OnOk result (Redoes self.old (line_at line.now) self.new) }
        ensures misfit { IfErr result (IsMisfitHere number line.now) }
        ensures found { IfErr result (IsFoundHere self.old line.now) }
    {
        let due = self.made_line(line)?;
        if is_the_line(&due, line) {
            return Ok(());
        }
        Err(ReplayRefusal::Misfit(Misfit {
            number,
            logged: *line,
            due,
        }))
    }

    /// Does all the lines from where nothing has happened, if each is the one that is due. They
    /// become the history, which was empty.
    pub fn replayed(mut self, lines: Vec<Line>) -> Result<PlayedWorld, ReplayRefusal>
        requires reached { IsReached self }
        requires none { history_in self ≡ [] }
        ensures reached { IfOk result (λ c. IsReached c) }
        ensures keeps { IfOk result (λ c. Keeps self c) }
        ensures history { IfOk result (λ c. history_in c ≡ map line_at lines.items) }
        ensures misfit { IfErr result (IsMisfitFrom (file_in self) (is_seat (chairs_in self)) (opened_in self)
            (map line_at lines.items)) }
    {
        for done in 0..lines.len() {
            if let Err(refusal) = self.do_again(done as u64 + 1, &lines[done]) {
                return Err(refusal);
            }
        }
        self.history = lines;
        Ok(self)
    }
}
