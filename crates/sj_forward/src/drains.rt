//! Rounds of all parties, until one has no event.
ghost use Rattle.std.specs.Prelude.{◌≡◌, ◌<◌, false, IfOk, OnErr, OnOk, true, length};
ghost use Rattle.sj_forward.specs.ForwarderWorld.{ComesFrom, event_at};
ghost use Rattle.sj_forward.specs.Draining.{ActsOut, BreaksOff, Empties, EmptiesEach, GoesBy, GoesFirst, IsDrained, IsRound, TakesTurn};
ghost use Rattle.sj_forward_rules.specs.Ready.{has_step};
ghost use Rattle.sj_forward_rules.specs.World.{IsQuietAmong};
ghost use Rattle.sj_rules.specs.Drain.{numbers_from};
ghost use Rattle.sj_rules.specs.Party.{play_of};

use crate::forwarder_world::ForwarderWorld;
use crate::{Turn, TurnRefusal};
use sj_base::NoMemory;

impl ForwarderWorld {
    ghost use Rattle.sj_forward.specs.ForwarderWorld.{IsReached, StaysIn, Steps, forwarders_in, file_in, world_in};

    /// Tries a turn. Answers whether it was a step.
    fn tries(&mut self, party: u16, turn: Turn) -> Result<bool, NoMemory>
        requires reached { IsReached self.old }
        requires there { party < length (forwarders_in self.old) }
        requires origin { ComesFrom turn (length (forwarders_in self.old)) }
        ensures done { IfOk result (λ b. b ≡ true → Steps self.old party (event_at turn) self.new) }
        ensures stays { IfOk result (λ b. b ≡ false → StaysIn self.old self.new) }
        ensures none { IfOk result (λ b. b ≡ false →
            has_step (play_of (file_in self.old)) (world_in self.old) party (event_at turn) ≡ false) }
        ensures err { OnErr result (StaysIn self.old self.new) }
        ensures reached { IsReached self.new }
        ensures file { file_in self.new ≡ file_in self.old }
        ensures count { length (forwarders_in self.new) ≡ length (forwarders_in self.old) }
    {
        match self.step(party, turn) {
            Ok(()) => Ok(true),
            Err(TurnRefusal::NoStep) => Ok(false),
            Err(TurnRefusal::NoMemory) => Err(NoMemory),
        }
    }

    /// The party takes the frames of the lane from that party, until it is empty.
    fn take_all(&mut self, party: u16, from: u16) -> Result<(), NoMemory>
        requires reached { IsReached self.old }
        requires there { party < length (forwarders_in self.old) }
        requires origin { from < length (forwarders_in self.old) }
        ensures ok { OnOk result (GoesBy (Empties self.old party from) self.old self.new) }
        ensures err { OnErr result (GoesFirst (Empties self.old party from) self.old self.new) }
        ensures reached { IsReached self.new }
        ensures file { file_in self.new ≡ file_in self.old }
        ensures count { length (forwarders_in self.new) ≡ length (forwarders_in self.old) }
    {
        while self.tries(party, Turn::Deliver(from))? {}
        Ok(())
    }

    /// The party acts until it can't.
    fn act_out(&mut self, party: u16) -> Result<(), NoMemory>
        requires reached { IsReached self.old }
        requires there { party < length (forwarders_in self.old) }
        ensures ok { OnOk result (GoesBy (ActsOut self.old party) self.old self.new) }
        ensures err { OnErr result (GoesFirst (ActsOut self.old party) self.old self.new) }
        ensures reached { IsReached self.new }
        ensures file { file_in self.new ≡ file_in self.old }
        ensures count { length (forwarders_in self.new) ≡ length (forwarders_in self.old) }
    {
        while self.tries(party, Turn::Act)? {}
        Ok(())
    }

    /// The party takes the frames of all lanes to it, one lane after another.
    fn take_each(&mut self, party: u16) -> Result<(), NoMemory>
        requires reached { IsReached self.old }
        requires there { party < length (forwarders_in self.old) }
        ensures ok { OnOk result (GoesBy (EmptiesEach self.old party (numbers_from 0 (length (forwarders_in self.old))))
            self.old self.new) }
        ensures err { OnErr result (GoesFirst (EmptiesEach self.old party (numbers_from 0 (length (forwarders_in self.old))))
            self.old self.new) }
        ensures reached { IsReached self.new }
        ensures file { file_in self.new ≡ file_in self.old }
        ensures count { length (forwarders_in self.new) ≡ length (forwarders_in self.old) }
    {
        for from in 0..self.forwarders.len() {
            self.take_all(party, from as u16)?;
        }
        Ok(())
    }

    /// The party takes all frames to it, and acts until it can't.
    fn turn(&mut self, party: u16) -> Result<(), NoMemory>
        requires reached { IsReached self.old }
        requires there { party < length (forwarders_in self.old) }
        ensures ok { OnOk result (GoesBy (TakesTurn self.old (length (forwarders_in self.old)) party) self.old self.new) }
        ensures err { OnErr result (GoesFirst (TakesTurn self.old (length (forwarders_in self.old)) party) self.old self.new) }
        ensures reached { IsReached self.new }
        ensures file { file_in self.new ≡ file_in self.old }
        ensures count { length (forwarders_in self.new) ≡ length (forwarders_in self.old) }
    {
        self.take_each(party)?;
        self.act_out(party)
    }

    /// Each party takes its turn, in order.
    fn round(&mut self) -> Result<(), NoMemory>
        requires reached { IsReached self.old }
        ensures ok { OnOk result (GoesBy (IsRound self.old (length (forwarders_in self.old))) self.old self.new) }
        ensures err { OnErr result (GoesFirst (IsRound self.old (length (forwarders_in self.old))) self.old self.new) }
        ensures reached { IsReached self.new }
        ensures file { file_in self.new ≡ file_in self.old }
        ensures count { length (forwarders_in self.new) ≡ length (forwarders_in self.old) }
    {
        for party in 0..self.forwarders.len() {
            self.turn(party as u16)?;
        }
        Ok(())
    }

    /// Rounds, until one has no event.
    pub fn drain(&mut self) -> Result<(), NoMemory>
        requires reached { IsReached self.old }
        ensures ok { OnOk result (GoesBy (IsDrained self.old (length (forwarders_in self.old))) self.old self.new) }
        ensures err { OnErr result (BreaksOff (IsDrained self.old (length (forwarders_in self.old))) self.old self.new) }
        ensures quiet { OnOk result (IsQuietAmong (play_of (file_in self.new)) (length (forwarders_in self.new)) (world_in self.new)) }
        ensures reached { IsReached self.new }
        ensures file { file_in self.new ≡ file_in self.old }
        ensures count { length (forwarders_in self.new) ≡ length (forwarders_in self.old) }
    {
        while self.round_goes()? {}
        Ok(())
    }

    /// One round. Answers whether it had an event.
    fn round_goes(&mut self) -> Result<bool, NoMemory>
        requires reached { IsReached self.old }
        ensures ok { OnOk result (GoesBy (IsRound self.old (length (forwarders_in self.old))) self.old self.new) }
        ensures err { OnErr result (GoesFirst (IsRound self.old (length (forwarders_in self.old))) self.old self.new) }
        ensures more { IfOk result (λ b. b ≡ true → self.old.events < self.new.events) }
        ensures none { IfOk result (λ b. b ≡ false → self.new.events ≡ self.old.events) }
        ensures reached { IsReached self.new }
        ensures file { file_in self.new ≡ file_in self.old }
        ensures count { length (forwarders_in self.new) ≡ length (forwarders_in self.old) }
    {
        let before = self.events;
        self.round()?;
        Ok(self.events != before)
    }
}
