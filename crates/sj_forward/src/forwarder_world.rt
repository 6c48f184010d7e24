//! A forwarding world as it lies in memory.
ghost use Rattle.std.specs.Prelude.{◌≡◌, ◌↔◌, ◌<◌, false, true, IsErrOf, OnErr, OnOk, length};
ghost use Rattle.sj_forward.specs.ForwarderWorld.{ComesFrom, IsReached, PlainActs, PlainStays, StaysIn, Steps};
ghost use Rattle.sj_forward.specs.ForwarderWorld.{Wants, forwarders_in, event_at, file_in, world_in};
ghost use Rattle.sj_forward.specs.declared.refusal.Turn.TheVariants as turns;
ghost use Rattle.sj_forward_rules.specs.Ready.{has_step};
ghost use Rattle.sj_plain.specs.Plain.{kept_file, party_count, world_at};
ghost use Rattle.sj_rules.specs.Party.{play_of};
ghost use Rattle.sj_rules.specs.World as rules;
ghost use Rattle.sj_semantics.specs.State.{state_of};
ghost use Rattle.sj_semantics.specs.declared.State.TheVariants.{Ready};

use crate::forwarder::Forwarder;
use crate::lanes::{drop_front, front_of};
use crate::{Turn, TurnRefusal};
use sj_base::NoMemory;
use sj_machine::MAX_STEPS;
use sj_plain::{Halt, Plain};
use sj_semantics::Want;
use std::alloc::Global;

/// The plain world, in which the parties' programs are, what each party keeps beside, and how many
/// frames were delivered and how many turns there were.
#[derive(Drop)]
pub struct ForwarderWorld {
    pub alloc: Global,
    pub plain: Plain,
    pub forwarders: Vec<Forwarder>,
    pub passed: u64,
    pub events: u64,
}

/// The act in the plain world, where the party is ready.
fn act_plainly(plain: &mut Plain, party: u16) -> Result<(), NoMemory>
    requires there { party < party_count plain.old }
    requires ready { state_of (world_at plain.old) party ≡ Ready }
    ensures ok { OnOk result (PlainActs party plain.old plain.new) }
    ensures err { OnErr result (PlainStays plain.old plain.new) }
    ensures parties { party_count plain.new ≡ length (kept_file plain.new).parties }
{
    match plain.act(party) {
        Ok(()) => Ok(()),
        Err(Halt::NoMemory) => Err(NoMemory),
        Err(Halt::Waits) => unreachable!(),
        Err(Halt::Ended) => unreachable!(),
        Err(Halt::AtLimit) => unreachable!(),
    }
}

impl ForwarderWorld {
    /// The party's next act.
    fn act(&mut self, party: u16) -> Result<(), TurnRefusal>
        requires reached { IsReached self.old }
        requires there { party < length (forwarders_in self.old) }
        ensures ok { OnOk result (Steps self.old party rules.Act self.new) }
        ensures no_step { IsErrOf result TurnRefusal.NoStep ↔
            (has_step (play_of (file_in self.old)) (world_in self.old) party rules.Act ≡ false) }
        ensures err { OnErr result (StaysIn self.old self.new) }
        ensures reached { IsReached self.new }
    {
        let want = self.plain.wants(party);
        if !self.is_ready(party, want) {
            return Err(TurnRefusal::NoStep);
        }
        match self.act_on(party, want) {
            Ok(()) => Ok(()),
            Err(NoMemory) => Err(TurnRefusal::NoMemory),
        }
    }

    /// Whether the party is ready to do its next step, which is that one.
    fn is_ready(&self, party: u16, want: Want) -> bool
        requires reached { IsReached self.now }
        requires there { party < length (forwarders_in self.now) }
        requires wants { Wants self.now.plain party want }
        ensures { result ≡ has_step (play_of (file_in self.now)) (world_in self.now) party rules.Act }
    {
        let forwarder = &self.forwarders[party as usize];
        self.plain.steps(party) < MAX_STEPS && forwarder.ready(want)
    }

    /// The next step of a ready party.
    fn act_on(&mut self, party: u16, want: Want) -> Result<(), NoMemory>
        requires reached { IsReached self.old }
        requires there { party < length (forwarders_in self.old) }
        requires wants { Wants self.old.plain party want }
        requires ready { has_step (play_of (file_in self.old)) (world_in self.old) party rules.Act ≡ true }
        ensures ok { OnOk result (Steps self.old party rules.Act self.new) }
        ensures err { OnErr result (StaysIn self.old self.new) }
        ensures reached { IsReached self.new }
    {
        let forwarder = &mut self.forwarders[party as usize];
        forwarder.make_room(party, want)?;
        act_plainly(&mut self.plain, party)?;
        forwarder.act(party, want);
        self.events += 1;
        Ok(())
    }

    /// The front frame of the lane from that party is delivered to the party.
    fn deliver(&mut self, party: u16, from: u16) -> Result<(), TurnRefusal>
        requires reached { IsReached self.old }
        requires there { party < length (forwarders_in self.old) }
        requires origin { from < length (forwarders_in self.old) }
        ensures ok { OnOk result (Steps self.old party (rules.Deliver from) self.new) }
        ensures no_step { IsErrOf result TurnRefusal.NoStep ↔
            (has_step (play_of (file_in self.old)) (world_in self.old) party (rules.Deliver from) ≡ false) }
        ensures err { OnErr result (StaysIn self.old self.new) }
        ensures reached { IsReached self.new }
    {
        let giver = &self.forwarders[from as usize];
        let Some(frame) = front_of(&giver.outs, party) else {
            return Err(TurnRefusal::NoStep);
        };
        let forwarder = &mut self.forwarders[party as usize];
        forwarder.deliver(from, frame)?;
        let giver = &mut self.forwarders[from as usize];
        drop_front(&mut giver.outs, party);
        self.passed += 1;
        self.events += 1;
        Ok(())
    }

    /// One turn.
    pub fn step(&mut self, party: u16, turn: Turn) -> Result<(), TurnRefusal>
        requires reached { IsReached self.old }
        requires there { party < length (forwarders_in self.old) }
        requires origin { ComesFrom turn (length (forwarders_in self.old)) }
        ensures ok { OnOk result (Steps self.old party (event_at turn) self.new) }
        ensures no_step { IsErrOf result TurnRefusal.NoStep ↔
            (has_step (play_of (file_in self.old)) (world_in self.old) party (event_at turn) ≡ false) }
        ensures err { OnErr result (StaysIn self.old self.new) }
        ensures reached { IsReached self.new }
        ensures file { file_in self.new ≡ file_in self.old }
        ensures count { length (forwarders_in self.new) ≡ length (forwarders_in self.old) }
    {
        match turn {
            Turn::Act => self.act(party),
            Turn::Deliver(from) => self.deliver(party, from),
        }
    }
}
