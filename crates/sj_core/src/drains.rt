//! Rounds of all parties, until one has no event.
ghost use Rattle.std.specs.Prelude.{◌≡◌, ◌<◌, None, IfOk, OnErr, OnOk, true, false, length, max};
ghost use Rattle.sj_core.specs.Draining.{ActsOut, BreaksOff, Empties, EmptiesEach, GoesBy, GoesFirst, IsDrained, IsRound, TakesTurn, Tried};
ghost use Rattle.sj_core.specs.Nodes.{ComesFrom};
ghost use Rattle.sj_core.specs.Views.{event_at};
ghost use Rattle.sj_end.specs.declared.note.Event.TheVariants as events;
ghost use Rattle.sj_rules.specs.Drain.{numbers_from};
ghost use Rattle.sj_rules.specs.History.{IsQuietAmong};
ghost use Rattle.sj_rules.specs.Party.{play_of};
ghost use Rattle.sj_rules.specs.World.{happens};

use crate::StepRefusal;
use crate::node_world::NodeWorld;
use sj_base::NoMemory;
use sj_end::Event;

impl NodeWorld {
    ghost use Rattle.sj_core.specs.NodeWorld.{IsReached, StaysIn, file_in, history_in, nodes_in, world_in};

    // Tries an event. Answers whether it was a step.
    fn tries(&mut self, party: u16, event: Event) -> Result<bool, NoMemory>
        requires reached { IsReached self.old }
        requires there { party < length (nodes_in self.old) }
        requires origin { ComesFrom event (length (nodes_in self.old)) }
        ensures done { IfOk result (λ b. b ≡ true → Tried self.old party event self.new) }
        ensures stays { IfOk result (λ b. b ≡ false → StaysIn self.old self.new) }
        ensures none { IfOk result (λ b. b ≡ false →
            happens (play_of (file_in self.old)) max (world_in self.old) party (event_at event) ≡ None) }
        ensures err { OnErr result (StaysIn self.old self.new) }
        ensures reached { IsReached self.new }
        ensures file { file_in self.new ≡ file_in self.old }
        ensures count { length (nodes_in self.new) ≡ length (nodes_in self.old) }
    {
        match self.step(party, event) {
            Ok(_) => Ok(true),
            Err(StepRefusal::NoStep) => Ok(false),
            Err(StepRefusal::NoMemory) => Err(NoMemory),
        }
    }

    // Tries a delivery from that party. Answers whether it was a step: an empty lane is seen at
    // once, and the sender's outbox gives its memory up, where that is large.
    fn takes(&mut self, party: u16, from: u16) -> Result<bool, NoMemory>
        requires reached { IsReached self.old }
        requires there { party < length (nodes_in self.old) }
        requires origin { from < length (nodes_in self.old) }
        ensures done { IfOk result (λ b. b ≡ true → Tried self.old party (events.Deliver from) self.new) }
        ensures stays { IfOk result (λ b. b ≡ false → StaysIn self.old self.new) }
        ensures none { IfOk result (λ b. b ≡ false →
            happens (play_of (file_in self.old)) max (world_in self.old) party (event_at (events.Deliver from)) ≡ None) }
        ensures err { OnErr result (StaysIn self.old self.new) }
        ensures reached { IsReached self.new }
        ensures file { file_in self.new ≡ file_in self.old }
        ensures count { length (nodes_in self.new) ≡ length (nodes_in self.old) }
    {
        if self.nodes[from as usize].nothing_waits(party) {
            self.nodes[from as usize].give_up_room(party);
            return Ok(false);
        }
        self.tries(party, Event::Deliver(from))
    }

    // The party takes the frames of the lane from that party, until it is empty.
    fn take_all(&mut self, party: u16, from: u16) -> Result<(), NoMemory>
        requires reached { IsReached self.old }
        requires there { party < length (nodes_in self.old) }
        requires origin { from < length (nodes_in self.old) }
        ensures ok { OnOk result (GoesBy (Empties self.old party from) self.old self.new) }
        ensures err { OnErr result (GoesFirst (Empties self.old party from) self.old self.new) }
        ensures reached { IsReached self.new }
        ensures file { file_in self.new ≡ file_in self.old }
        ensures count { length (nodes_in self.new) ≡ length (nodes_in self.old) }
    {
        while self.takes(party, from)? {}
        Ok(())
    }

    // The party acts until it can't.
    fn act_out(&mut self, party: u16) -> Result<(), NoMemory>
        requires reached { IsReached self.old }
        requires there { party < length (nodes_in self.old) }
        ensures ok { OnOk result (GoesBy (ActsOut self.old party) self.old self.new) }
        ensures err { OnErr result (GoesFirst (ActsOut self.old party) self.old self.new) }
        ensures reached { IsReached self.new }
        ensures file { file_in self.new ≡ file_in self.old }
        ensures count { length (nodes_in self.new) ≡ length (nodes_in self.old) }
    {
        while self.tries(party, Event::Act)? {}
        Ok(())
    }

    // The party takes the frames of all lanes to it, one lane after another.
    fn take_each(&mut self, party: u16) -> Result<(), NoMemory>
        requires reached { IsReached self.old }
        requires there { party < length (nodes_in self.old) }
        ensures ok { OnOk result (GoesBy (EmptiesEach self.old party (numbers_from 0 (length (nodes_in self.old))))
            self.old self.new) }
        ensures err { OnErr result (GoesFirst (EmptiesEach self.old party (numbers_from 0 (length (nodes_in self.old))))
            self.old self.new) }
        ensures reached { IsReached self.new }
        ensures file { file_in self.new ≡ file_in self.old }
        ensures count { length (nodes_in self.new) ≡ length (nodes_in self.old) }
    {
        for from in 0..self.nodes.len() {
            self.take_all(party, from as u16)?;
        }
        Ok(())
    }

    // The party takes all frames to it, and acts until it can't.
    fn turn(&mut self, party: u16) -> Result<(), NoMemory>
        requires reached { IsReached self.old }
        requires there { party < length (nodes_in self.old) }
        ensures ok { OnOk result (GoesBy (TakesTurn self.old (length (nodes_in self.old)) party) self.old self.new) }
        ensures err { OnErr result (GoesFirst (TakesTurn self.old (length (nodes_in self.old)) party) self.old self.new) }
        ensures reached { IsReached self.new }
        ensures file { file_in self.new ≡ file_in self.old }
        ensures count { length (nodes_in self.new) ≡ length (nodes_in self.old) }
    {
        self.take_each(party)?;
        self.act_out(party)
    }

    // Each party takes its turn, in order.
    fn round(&mut self) -> Result<(), NoMemory>
        requires reached { IsReached self.old }
        ensures ok { OnOk result (GoesBy (IsRound self.old (length (nodes_in self.old))) self.old self.new) }
        ensures err { OnErr result (GoesFirst (IsRound self.old (length (nodes_in self.old))) self.old self.new) }
        ensures reached { IsReached self.new }
        ensures file { file_in self.new ≡ file_in self.old }
        ensures count { length (nodes_in self.new) ≡ length (nodes_in self.old) }
    {
        for party in 0..self.nodes.len() {
            self.turn(party as u16)?;
        }
        Ok(())
    }

    /// Rounds, until one has no event.
    pub fn drain(&mut self) -> Result<(), NoMemory>
        requires reached { IsReached self.old }
        ensures ok { OnOk result (GoesBy (IsDrained self.old (length (nodes_in self.old))) self.old self.new) }
        ensures err { OnErr result (BreaksOff (IsDrained self.old (length (nodes_in self.old))) self.old self.new) }
        ensures quiet { OnOk result (IsQuietAmong (play_of (file_in self.new)) (length (nodes_in self.new)) (world_in self.new)) }
        ensures reached { IsReached self.new }
        ensures file { file_in self.new ≡ file_in self.old }
        ensures count { length (nodes_in self.new) ≡ length (nodes_in self.old) }
    {
        while self.round_goes()? {}
        Ok(())
    }

    // One round. Answers whether it had an event.
    fn round_goes(&mut self) -> Result<bool, NoMemory>
        requires reached { IsReached self.old }
        ensures ok { OnOk result (GoesBy (IsRound self.old (length (nodes_in self.old))) self.old self.new) }
        ensures err { OnErr result (GoesFirst (IsRound self.old (length (nodes_in self.old))) self.old self.new) }
        ensures more { IfOk result (λ b. b ≡ true → length (history_in self.old) < length (history_in self.new)) }
        ensures none { IfOk result (λ b. b ≡ false → length (history_in self.new) ≡ length (history_in self.old)) }
        ensures reached { IsReached self.new }
        ensures file { file_in self.new ≡ file_in self.old }
        ensures count { length (nodes_in self.new) ≡ length (nodes_in self.old) }
    {
        let before = self.history.len();
        self.round()?;
        Ok(self.history.len() != before)
    }
}
