//! The plain world of an accepted file.
ghost use Rattle.std.specs.Prelude.{◌≡◌, ◌<◌, ◌≤◌, ◌∷◌, ◌++◌, ◌↔◌, [], Some, true, IfOk, IsErrOf, OnErr};
ghost use Rattle.std.specs.Prelude.{OnOk, length, option_map, slice_get, unwrap_or};
ghost use Rattle.sj_check.specs.Held.{file_in as held};
ghost use Rattle.sj_lang.specs.FileView.{file_of};
ghost use Rattle.sj_plain.specs.Finish.{IsFinished};
ghost use Rattle.sj_plain.specs.Finishing.{BreaksOff, GoesBy};
ghost use Rattle.sj_plain.specs.SharedFile.{without_words};
ghost use Rattle.sj_plain.specs.Rounds.{is_waiting};
ghost use Rattle.sj_semantics.specs.Ends.{other_end};
ghost use Rattle.sj_semantics.specs.Run.{IsRun, end_of};
ghost use Rattle.sj_semantics.specs.World.{start_of, act_of};
ghost use Rattle.sj_semantics.specs.State.{IsSettled, is_at_limit, opened_in, state_of, verdict_of};
ghost use Rattle.sj_semantics.specs.Wants.{want_of};
ghost use Rattle.sj_semantics.specs.declared.State.TheVariants as states;
ghost use Rattle.sj_semantics.specs.declared.Want.TheVariants.{Ended};

use crate::Halt;
use crate::course::Course;
use sj_base::{EndId, NoMemory};
use sj_check::Accepted;
use sj_lang::Proto;
use sj_semantics::{Opened, Passed, State, Verdict, Want};
use std::alloc::Global;
use std::marker::Model;

/// The parties and the sessions of an accepted file, as their acts so far have left them.
#[derive(Drop)]
pub struct Plain {
    course: Course,
}

impl Model for Plain {
    ghost use Rattle.sj_plain.specs.declared.course.Course.{Course};
    ghost use Rattle.sj_plain.specs.contracts.course.Course as c;

    ghost Value = { Course };

    ghost coded = { c.the_row.coded };

    ghost use Rattle.sj_plain.specs.Course.{IsReached};

    ghost view = { λ p. p.course };

    ghost invariant = { λ p. IsReached p.course };
}

impl Plain {
    ghost use Rattle.sj_plain.specs.Course.{GoesOn};
    ghost use Rattle.sj_plain.specs.Plain.{acts_of, end_in, kept_file, party_count, session_count, world_at};

    /// The world before the first act. It has the file in common with all who keep it.
    pub fn start(alloc: Global, accepted: &Accepted) -> Result<Plain, NoMemory>
        // The file's start.
        ensures kept { IfOk result (λ p. kept_file p ≡ without_words (file_of (held accepted.now))) }
        ensures acts { IfOk result (λ p. acts_of p ≡ []) }
        ensures world { IfOk result (λ p. world_at p ≡ start_of (file_of (held accepted.now))) }

        // What is true of every world.
        ensures run { IfOk result (λ p. IsRun (kept_file p) (acts_of p) (world_at p)) }
        ensures parties { IfOk result (λ p. party_count p ≡ length (kept_file p).parties) }
        ensures sessions { IfOk result (λ p. length (kept_file p).connects ≤ session_count p) }
    {
        let course = Course::start(alloc, accepted)?;
        Ok(Plain { course })
    }

    /// Does the next step of the party. Whatever it refuses, the world stays as it was.
    pub fn act(&mut self, party: u16) -> Result<(), Halt>
        requires { party < party_count self.old }

        // The act of the party, which is listed.
        ensures ok { OnOk result (act_of (world_at self.old) party ≡ Some (world_at self.new)) }
        ensures acts { OnOk result (acts_of self.new ≡ acts_of self.old ++ party ∷ []) }

        // What is true of every world, and what no act changes.
        ensures run { IsRun (kept_file self.new) (acts_of self.new) (world_at self.new) }
        ensures kept { kept_file self.new ≡ kept_file self.old }
        ensures parties { party_count self.new ≡ length (kept_file self.new).parties }
        ensures sessions { length (kept_file self.new).connects ≤ session_count self.new }

        // A refusal changes nothing.
        ensures err { OnErr result (world_at self.new ≡ world_at self.old) }
        ensures err_acts { OnErr result (acts_of self.new ≡ acts_of self.old) }

        // Each refusal comes exactly where the party stands so.
        ensures waits { IsErrOf result Halt.Waits
            ↔ (is_waiting (state_of (world_at self.old) party) ≡ true) }
        ensures ended { IsErrOf result Halt.Ended
            ↔ (state_of (world_at self.old) party ≡ states.Ended) }
        ensures at_limit { IsErrOf result Halt.AtLimit
            ↔ (is_at_limit (state_of (world_at self.old) party) ≡ true) }
    {
        self.course.act(party)
    }

    /// Does rounds until one has no act. In a round each party, in file order, acts as long as it
    /// is ready. Without memory it breaks off.
    pub fn finish(&mut self) -> Result<(), NoMemory>
        // The acts are those of the rounds; where it breaks off they are the first of such.
        ensures rounds { OnOk result (GoesBy IsFinished self.old self.new) }
        ensures front { OnErr result (BreaksOff IsFinished self.old self.new) }

        // The end of the file.
        ensures settled { OnOk result (IsSettled (world_at self.new)) }
        ensures end { OnOk result (world_at self.new ≡ end_of (kept_file self.new)) }

        // Whatever it answers, some acts lead there.
        ensures on { GoesOn self.old self.new }
        ensures run { IsRun (kept_file self.new) (acts_of self.new) (world_at self.new) }
        ensures kept { kept_file self.new ≡ kept_file self.old }
        ensures parties { party_count self.new ≡ length (kept_file self.new).parties }
        ensures sessions { length (kept_file self.new).connects ≤ session_count self.new }
    {
        self.course.finish()
    }

    /// How many parties there are.
    pub fn parties(&self) -> usize
        ensures count { result ≡ party_count self.now }
        ensures kept { result ≡ length (kept_file self.now).parties }
    {
        self.course.machines.len()
    }

    /// How many sessions there are by their numbers: those of connections, then those that
    /// were opened, and those between them that aren't.
    pub fn sessions(&self) -> usize
        ensures count { result ≡ session_count self.now }
        ensures kept { length (kept_file self.now).connects ≤ result }
    {
        self.course.sessions.len()
    }

    /// The sessions that parties opened, in order of their numbers.
    pub fn opened(&self) -> &[Opened]
        ensures { result.now ≡ opened_in (world_at self.now) }
    {
        &self.course.opened
    }

    /// All messages that the end sent, in order; none where there is no such end.
    pub fn sent(&self, end: EndId) -> &[Passed]
        ensures { result.now ≡ (end_in self.now end).sent }
    {
        match self.course.sessions.get(end.sess as usize) {
            Some(session) => session.sent(end.side),
            None => &[],
        }
    }

    /// Who took the first of the messages that the end sent, in order.
    pub fn takers(&self, end: EndId) -> &[u16]
        ensures { result.now ≡ (end_in self.now (other_end end)).takers }
    {
        let other = if end.side == 0 { 1 } else { 0 };
        match self.course.sessions.get(end.sess as usize) {
            Some(session) => session.takers(other),
            None => &[],
        }
    }

    /// A copy of the items that are still ahead of the end.
    pub fn place(&self, alloc: Global, end: EndId) -> Result<Proto, NoMemory>
        requires { end.sess < session_count self.now }
        ensures { IfOk result (λ p. p ≡ (end_in self.now end).place) }
    {
        let session = &self.course.sessions[end.sess as usize];
        session.place(alloc, &self.course.table, end.side)
    }

    /// How many steps the party has done.
    pub fn steps(&self, party: u16) -> u32
        requires { party < party_count self.now }
        ensures { option_map (λ g. g.steps) (slice_get (world_at self.now).parties party) ≡ Some result }
    {
        let machine = &self.course.machines[party as usize];
        machine.steps()
    }

    /// The next step of the party.
    pub fn wants(&self, party: u16) -> Want
        requires { party < party_count self.now }
        ensures { option_map (λ g. unwrap_or (want_of g) Ended)
            (slice_get (world_at self.now).parties party) ≡ Some result }
    {
        self.course.wants(party)
    }

    /// How the party stands.
    pub fn state(&self, party: u16) -> State
        requires { party < party_count self.now }
        ensures { result ≡ state_of (world_at self.now) party }
    {
        self.course.state(party)
    }

    /// How the world ends: long where a party is at a limit, else done where each party has
    /// ended and each session that was opened was accepted, else blocked.
    pub fn verdict(&self) -> Verdict
        ensures { result ≡ verdict_of (world_at self.now) }
    {
        self.course.verdict()
    }
}
