//! Rounds of all parties, until one has no event.
ghost use Rattle.std.specs.Prelude.{◌≡◌, ◌<◌, ◌≤◌, false, true, IfOk, OnOk, length};
ghost use Rattle.sj_seats.specs.Core.{is_seat};
ghost use Rattle.sj_seats.specs.Draining.{Adds, AreIdle, Goes, HasNoLane, IsQuiet, Tries};
ghost use Rattle.sj_seats.specs.Played.{IsEmpty, IsIdle, IsReached, IsStill, Keeps, chairs_in, history_in, nodes_in};

use crate::played::PlayedWorld;
use sj_base::NoMemory;
use sj_end::Line;

impl PlayedWorld {
    /// Tries a delivery from that party. Answers whether there was a frame.
    fn takes(&mut self, party: u16, from: u16) -> Result<bool, NoMemory>
        requires reached { IsReached self.old }
        requires there { party < length (nodes_in self.old) }
        requires origin { from < length (nodes_in self.old) }
        ensures tried { IfOk result (λ b. Tries b self.old self.new (IsEmpty self.new from party)) }
        ensures reached { IsReached self.new }
        ensures keeps { Keeps self.old self.new }
        ensures adds { Adds self.old self.new }
    {
        if self.history.reserve(1).is_err() {
            return Err(NoMemory);
        }
        match self.deliver(party, from) {
            Ok(Some(entry)) => {
                self.history.push_reserved(Line { party, entry });
                Ok(true)
            }
            Ok(None) => Ok(false),
            Err(refusal) => Err(refusal),
        }
    }

    /// Tries an act of a party that goes by the file. Answers whether it acted.
    fn acts(&mut self, party: u16) -> Result<bool, NoMemory>
        requires reached { IsReached self.old }
        requires there { party < length (nodes_in self.old) }
        requires own { is_seat (chairs_in self.old) party ≡ false }
        ensures tried { IfOk result (λ b. Tries b self.old self.new (IsStill self.new party)) }
        ensures reached { IsReached self.new }
        ensures keeps { Keeps self.old self.new }
        ensures adds { Adds self.old self.new }
    {
        if self.history.reserve(1).is_err() {
            return Err(NoMemory);
        }
        match self.act(party) {
            Ok(Some(entry)) => {
                self.history.push_reserved(Line { party, entry });
                Ok(true)
            }
            Ok(None) => Ok(false),
            Err(refusal) => Err(refusal),
        }
    }

    /// The party takes the frames of the lane from that party, until it is empty.
    fn take_all(&mut self, party: u16, from: u16) -> Result<(), NoMemory>
        requires reached { IsReached self.old }
        requires there { party < length (nodes_in self.old) }
        requires origin { from < length (nodes_in self.old) }
        ensures goes { OnOk result (Goes self.old self.new (IsEmpty self.new from party)) }
        ensures reached { IsReached self.new }
        ensures keeps { Keeps self.old self.new }
        ensures adds { Adds self.old self.new }
    {
        while self.takes(party, from)? {}
        Ok(())
    }

    /// The party acts until it can't.
    fn act_out(&mut self, party: u16) -> Result<(), NoMemory>
        requires reached { IsReached self.old }
        requires there { party < length (nodes_in self.old) }
        requires own { is_seat (chairs_in self.old) party ≡ false }
        ensures goes { OnOk result (Goes self.old self.new (IsStill self.new party)) }
        ensures reached { IsReached self.new }
        ensures keeps { Keeps self.old self.new }
        ensures adds { Adds self.old self.new }
    {
        while self.acts(party)? {}
        Ok(())
    }

    /// The party takes the frames of all lanes to it, one lane after another.
    fn take_each(&mut self, party: u16) -> Result<(), NoMemory>
        requires reached { IsReached self.old }
        requires there { party < length (nodes_in self.old) }
        ensures goes { OnOk result (Goes self.old self.new (HasNoLane self.new (length (nodes_in self.new)) party)) }
        ensures reached { IsReached self.new }
        ensures keeps { Keeps self.old self.new }
        ensures adds { Adds self.old self.new }
    {
        for from in 0..self.nodes.len() {
            self.take_all(party, from as u16)?;
        }
        Ok(())
    }

    /// Whether the party is played by code.
    pub fn is_seat(&self, party: u16) -> bool
        requires reached { IsReached self.now }
        requires there { party < length (nodes_in self.now) }
        ensures { result ≡ is_seat (chairs_in self.now) party }
    {
        self.chairs[party as usize].is_some()
    }

    /// The party acts until it can't. A code makes no call any more.
    fn acts_if_written(&mut self, party: u16) -> Result<(), NoMemory>
        requires reached { IsReached self.old }
        requires there { party < length (nodes_in self.old) }
        ensures goes { OnOk result (Goes self.old self.new (IsStill self.new party)) }
        ensures reached { IsReached self.new }
        ensures keeps { Keeps self.old self.new }
        ensures adds { Adds self.old self.new }
    {
        if self.is_seat(party) {
            return Ok(());
        }
        self.act_out(party)
    }

    /// The party takes all frames to it, and acts until it can't.
    fn turn(&mut self, party: u16) -> Result<(), NoMemory>
        requires reached { IsReached self.old }
        requires there { party < length (nodes_in self.old) }
        ensures goes { OnOk result (Goes self.old self.new (IsIdle self.new (length (nodes_in self.new)) party)) }
        ensures reached { IsReached self.new }
        ensures keeps { Keeps self.old self.new }
        ensures adds { Adds self.old self.new }
    {
        self.take_each(party)?;
        self.acts_if_written(party)
    }

    /// Each party takes its turn, in order.
    fn round(&mut self) -> Result<(), NoMemory>
        requires reached { IsReached self.old }
        ensures goes { OnOk result (Goes self.old self.new (AreIdle self.new (length (nodes_in self.new)))) }
        ensures reached { IsReached self.new }
        ensures keeps { Keeps self.old self.new }
        ensures adds { Adds self.old self.new }
    {
        for party in 0..self.nodes.len() {
            self.turn(party as u16)?;
        }
        Ok(())
    }

    /// One round. Answers whether it had an event.
    fn round_goes(&mut self) -> Result<bool, NoMemory>
        requires reached { IsReached self.old }
        ensures more { IfOk result (λ b. b ≡ true → length (history_in self.old) < length (history_in self.new)) }
        ensures none { IfOk result (λ b. b ≡ false → IsQuiet self.new) }
        ensures reached { IsReached self.new }
        ensures keeps { Keeps self.old self.new }
        ensures adds { Adds self.old self.new }
    {
        let before = self.history.len();
        self.round()?;
        Ok(self.history.len() != before)
    }

    /// Rounds, until one has no event.
    pub fn drain(&mut self) -> Result<(), NoMemory>
        requires reached { IsReached self.old }
        ensures quiet { OnOk result (IsQuiet self.new) }
        ensures reached { IsReached self.new }
        ensures keeps { Keeps self.old self.new }
        ensures adds { Adds self.old self.new }
    {
        while self.round_goes()? {}
        Ok(())
    }
}
