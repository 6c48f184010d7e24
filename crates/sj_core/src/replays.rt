//! Lines that were logged, done again one by one.
ghost use Rattle.std.specs.Prelude.{◌≡◌, ◌↔◌, [], IfErr, IfOk, IfSome, IsTrue, OnErr, OnOk, Some, map, max, option_map};
ghost use Rattle.sj_core.specs.Nodes.{Moves, NodesStay};
ghost use Rattle.sj_core.specs.Replaying.{Follows, IsMisfitFrom, IsMisfitHere, IsRefusedSo};
ghost use Rattle.sj_core.specs.Views.{event_at, line_at};
ghost use Rattle.sj_rules.specs.History.{due};
ghost use Rattle.sj_rules.specs.Party.{play_of};

use crate::node_world::NodeWorld;
use crate::sameness::is_same_entry;
use crate::{ReplayRefusal, StepRefusal};
use sj_base::NoMemory;
use sj_end::{Event, Line, Misfit};

/// Whether there is a line and it is that one.
pub fn is_the_line(due: &Option<Line>, line: &Line) -> bool
    ensures { IsTrue result ↔ (due.now ≡ Some line.now) }
{
    match due {
        Some(due) => due.party == line.party && is_same_entry(&due.entry, &line.entry),
        None => false,
    }
}

impl NodeWorld {
    ghost use Rattle.sj_core.specs.NodeWorld.{IsLed, IsReached, Redoes, StaysIn, Steps, file_in, history_in, nodes_in, world_in};

    // Does the line of that number, if it is the one that is due. It isn't listed.
    fn redo(&mut self, number: u64, line: &Line) -> Result<(), ReplayRefusal>
        requires led { IsLed self.old }
        ensures ok { OnOk result (Redoes self.old (line_at line.now) self.new) }
        ensures misfit { IfErr result (IsMisfitHere self.old number line.now) }
        ensures err { OnErr result (NodesStay (file_in self.old) (nodes_in self.old) (nodes_in self.new)) }
        ensures file { file_in self.new ≡ file_in self.old }
        ensures history { self.new.history ≡ self.old.history }
    {
        let due = self.due_line(line.party, line.entry.event);
        if !is_the_line(&due, line) {
            return Err(ReplayRefusal::Misfit(Misfit {
                number,
                logged: *line,
                due,
            }));
        }
        match self.happen(line.party, line.entry.event) {
            Ok(_) => Ok(()),
            Err(StepRefusal::NoStep) => unreachable!(),
            Err(StepRefusal::NoMemory) => Err(ReplayRefusal::NoMemory),
        }
    }

    // Does the line of that number, if it is the one that is due, and lists it.
    fn follow(&mut self, number: u64, line: &Line) -> Result<(), ReplayRefusal>
        requires reached { IsReached self.old }
        ensures ok { OnOk result (Steps self.old (line_at line.now) self.new) }
        ensures misfit { IfErr result (IsMisfitHere self.old number line.now) }
        ensures err { OnErr result (StaysIn self.old self.new) }
        ensures reached { IsReached self.new }
        ensures file { file_in self.new ≡ file_in self.old }
    {
        if self.history.reserve(1).is_err() {
            return Err(ReplayRefusal::NoMemory);
        }
        match self.redo(number, line) {
            Ok(()) => {
                self.history.push_reserved(*line);
                Ok(())
            }
            Err(refusal) => Err(refusal),
        }
    }

    /// Does all the lines, up to the first that isn't the one that is due.
    pub fn replay(&mut self, lines: &[Line]) -> Result<(), ReplayRefusal>
        requires reached { IsReached self.old }
        ensures ok { OnOk result (Follows self.old (map line_at lines.now) self.new) }
        ensures refused { IfErr result (λ r. IsRefusedSo self.old lines.now r self.new) }
        ensures reached { IsReached self.new }
        ensures file { file_in self.new ≡ file_in self.old }
    {
        let mut number: u64 = 0;
        for line in lines {
            number += 1;
            if let Err(refusal) = self.follow(number, line) {
                return Err(refusal);
            }
        }
        Ok(())
    }

    // Does the event, and answers the line that it made; none where it is illegal. It isn't
    // listed.
    fn made_line(&mut self, party: u16, event: Event) -> Result<Option<Line>, NoMemory>
        requires led { IsLed self.old }
        ensures found { IfOk result (λ made. due (play_of (file_in self.old)) max (world_in self.old) party (event_at event)
            ≡ option_map line_at made) }
        ensures done { IfOk result (λ made. IfSome made (λ l. Moves (file_in self.old) (nodes_in self.old) party event
            l.entry (nodes_in self.new))) }
        ensures file { file_in self.new ≡ file_in self.old }
    {
        if !self.is_there(party, event) {
            return Ok(None);
        }
        match self.happen(party, event) {
            Ok(entry) => Ok(Some(Line { party, entry })),
            Err(StepRefusal::NoStep) => Ok(None),
            Err(StepRefusal::NoMemory) => Err(NoMemory),
        }
    }

    // Does the event of the line of that number, and then looks whether it made that line: it
    // isn't asked before what is due. It isn't listed. A world in which another line was made is
    // given up.
    #[tactic(auto, using(crate::proofs::RedoLemmas::redoes))]
    fn do_again(&mut self, number: u64, line: &Line) -> Result<(), ReplayRefusal>
        requires led { IsLed self.old }
        ensures ok { OnOk result (Redoes self.old (line_at line.now) self.new) }
        ensures misfit { IfErr result (IsMisfitHere self.old number line.now) }
        ensures file { file_in self.new ≡ file_in self.old }
    {
        let due = self.made_line(line.party, line.entry.event)?;
        if is_the_line(&due, line) {
            return Ok(());
        }
        Err(ReplayRefusal::Misfit(Misfit {
            number,
            logged: *line,
            due,
        }))
    }

    /// Does all the lines from where nothing has happened, if each is the one that is due. They
    /// become the history, which was empty.
    pub fn replayed(mut self, lines: Vec<Line>) -> Result<NodeWorld, ReplayRefusal>
        requires reached { IsReached self }
        requires none { history_in self ≡ [] }
        ensures reached { IfOk result (λ c. IsReached c) }
        ensures file { IfOk result (λ c. file_in c ≡ file_in self) }
        ensures history { IfOk result (λ c. history_in c ≡ map line_at lines.items) }
        ensures misfit { IfErr result (IsMisfitFrom (file_in self) (map line_at lines.items)) }
    {
        for done in 0..lines.len() {
            if let Err(refusal) = self.do_again(done as u64 + 1, &lines[done]) {
                return Err(refusal);
            }
        }
        self.history = lines;
        Ok(self)
    }
}
