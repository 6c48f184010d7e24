//! A course of acts: a file's parties and sessions as the acts so far have left them.
ghost use Rattle.std.specs.Prelude.{◌≡◌, ◌<◌, ◌≤◌, ◌∷◌, ◌++◌, [], None, Some, true, false, length, map, option_map, slice_get, unwrap_or, IfOk, MatchResult, OnErr, OnOk};
ghost use Rattle.sj_acceptance.specs.Accepted.{IsAccepted};
ghost use Rattle.sj_check.specs.Held.{file_in as held};
ghost use Rattle.std.specs.Coded.{Coded-set};
ghost use Rattle.sj_lang.specs.FileView.{connect_of, file_of, protocol_of};
ghost use Rattle.sj_lang.specs.PlaceCode.{coded_place};
ghost use Rattle.sj_plain.specs.Ends.{StartsAt, connected_session};
ghost use Rattle.sj_lang.specs.Limits.{limits};
ghost use Rattle.sj_plain.specs.Finish.{ActsOut, IsFinished, IsRound};
ghost use Rattle.sj_plain.specs.SharedFile.{without_words};
ghost use Rattle.sj_machine.specs.Sound.{program_at};
ghost use Rattle.sj_plain.specs.Rounds.{Shows, steps_left};
ghost use Rattle.sj_plain.specs.Stepping.{sessions_at};
ghost use Rattle.sj_semantics.specs.World.{start_of, act_of};
ghost use Rattle.sj_semantics.specs.State.{IsSettled, state_of};
ghost use Rattle.sj_semantics.specs.Wants.{want_of};
ghost use Rattle.sj_semantics.specs.declared.State.TheVariants.{Ready};
ghost use Rattle.sj_semantics.specs.declared.Want.TheVariants.{Ended};

use crate::Halt;
use crate::ends::Session;
use crate::progress::step;
use crate::shared_file::SharedFile;
use sj_base::NoMemory;
use sj_check::Accepted;
use sj_lang::{Connect, File};
use sj_machine::Machine;
use sj_semantics::{Opened, State, Want};
use sj_table::Table;
use std::alloc::Global;

/// A file, the table in which its protocols start at their bodies, its parties and
/// sessions, and who acted so far.
#[derive(Drop)]
pub struct Course {
    pub alloc: Global,
    pub kept: SharedFile,
    pub table: Table,
    pub machines: Vec<Machine>,
    pub sessions: Vec<Session>,
    pub opened: Vec<Opened>,
    pub acts: Vec<u16>,
    pub ghost starts: { StartsAt table (map protocol_of kept.protocols.items) } by { Prim.hlevel (Coded-set, coded_place) },
}

impl Course {
    ghost use Rattle.sj_plain.specs.Course.{GoesOn, IsOrdered, acts_in, file_in, world_in};
    ghost use Rattle.sj_plain.specs.Finishing.{ActsOnce, BreaksOff, GoesBy, Stays};

    /// The course of an accepted file before any act. It has the file and its table in
    /// common with all who keep them.
    pub fn start(alloc: Global, accepted: &Accepted) -> Result<Course, NoMemory>
        ensures accepted { OnOk result (IsAccepted (file_of (held accepted.now))) }
        ensures file { IfOk result (λ c. file_in c ≡ without_words (file_of (held accepted.now))) }
        ensures acts { IfOk result (λ c. acts_in c ≡ []) }
        ensures world { IfOk result (λ c. world_in c ≡ start_of (file_of (held accepted.now))) }
        ensures ordered { IfOk result IsOrdered }
    {
        let kept = SharedFile::of(accepted)?;
        let table = accepted.table().copied()?;
        let file = accepted.file();
        let machines = first_machines(alloc, file)?;
        let sessions = first_sessions(alloc, &table, &file.connects)?;
        Ok(Course {
            alloc,
            kept,
            table,
            machines,
            sessions,
            opened: Vec::new(alloc),
            acts: Vec::new(alloc),
        })
    }

    /// Does the next step of the party.
    pub fn act(&mut self, party: u16) -> Result<(), Halt>
        requires there { party < length (world_in self.old).parties }
        requires ordered { IsOrdered self.old }
        ensures ok { OnOk result (act_of (world_in self.old) party ≡ Some (world_in self.new)) }
        ensures acts { OnOk result (acts_in self.new ≡ acts_in self.old ++ party ∷ []) }
        ensures file { file_in self.new ≡ file_in self.old }
        ensures count { length (world_in self.new).parties ≡ length (world_in self.old).parties }
        ensures err { OnErr result (world_in self.new ≡ world_in self.old) }
        ensures err_acts { OnErr result (acts_in self.new ≡ acts_in self.old) }
        ensures on { GoesOn self.old self.new }
        ensures ordered { IsOrdered self.new }
        ensures told { let state = state_of (world_in self.old) party in
            MatchResult result (λ _. state ≡ Ready) (λ h. Shows state h) }
    {
        let want = self.wants(party);
        match self.state_by(party, &want) {
            State::Waits(_) => Err(Halt::Waits),
            State::WaitsOpen(_) => Err(Halt::Waits),
            State::Ended => Err(Halt::Ended),
            State::AtLimit(_) => Err(Halt::AtLimit),
            State::Ready => match self.step(party, &want) {
                Ok(()) => Ok(()),
                Err(NoMemory) => Err(Halt::NoMemory),
            },
        }
    }

    /// Does the next step of a ready party, which is the one that it wants, and lists it.
    fn step(&mut self, party: u16, want: &Want) -> Result<(), NoMemory>
        requires there { party < length (world_in self.old).parties }
        requires wants { option_map (λ g. unwrap_or (want_of g) Ended)
            (slice_get (world_in self.old).parties party) ≡ Some want.now }
        requires ready { state_of (world_in self.old) party ≡ Ready }
        requires ordered { IsOrdered self.old }
        ensures ok { OnOk result (act_of (world_in self.old) party ≡ Some (world_in self.new)) }
        ensures acts { OnOk result (acts_in self.new ≡ acts_in self.old ++ party ∷ []) }
        ensures file { file_in self.new ≡ file_in self.old }
        ensures count { length (world_in self.new).parties ≡ length (world_in self.old).parties }
        ensures err { OnErr result (world_in self.new ≡ world_in self.old) }
        ensures err_acts { OnErr result (acts_in self.new ≡ acts_in self.old) }
        ensures on { GoesOn self.old self.new }
        ensures ordered { IsOrdered self.new }
    {
        self.acts.reserve(1)?;
        let machine = &mut self.machines[party as usize];
        step(
            self.alloc,
            &self.table,
            &mut self.sessions,
            &mut self.opened,
            machine,
            party,
            want,
        )?;
        self.acts.push_reserved(party);
        Ok(())
    }

    /// Lets the party act once. Answers whether it did.
    #[tactic(auto, using(crate::proofs::IdleLemmas::idle))]
    fn tried(&mut self, party: u16) -> Result<bool, NoMemory>
        requires there { party < length (world_in self.old).parties }
        requires ordered { IsOrdered self.old }
        ensures on { GoesOn self.old self.new }
        ensures ordered { IsOrdered self.new }
        ensures count { length (world_in self.new).parties ≡ length (world_in self.old).parties }
        ensures done { IfOk result (λ b. b ≡ true → ActsOnce self.old party self.new) }
        ensures stays { IfOk result (λ b. b ≡ false → Stays self.old self.new) }
        ensures idle { IfOk result (λ b. b ≡ false → act_of (world_in self.old) party ≡ None) }
        ensures busy { IfOk result (λ b. b ≡ true →
            steps_left (world_in self.new) < steps_left (world_in self.old)) }
        ensures err { OnErr result (Stays self.old self.new) }
    {
        match self.act(party) {
            Ok(()) => Ok(true),
            Err(Halt::NoMemory) => Err(NoMemory),
            Err(Halt::Waits) => Ok(false),
            Err(Halt::Ended) => Ok(false),
            Err(Halt::AtLimit) => Ok(false),
        }
    }

    /// Lets the party act as long as it is ready. Answers whether it acted.
    fn turn(&mut self, party: u16) -> Result<bool, NoMemory>
        requires there { party < length (world_in self.old).parties }
        requires ordered { IsOrdered self.old }
        ensures ok { OnOk result (GoesBy (ActsOut party) self.old self.new) }
        ensures err { OnErr result (BreaksOff (ActsOut party) self.old self.new) }
        ensures on { GoesOn self.old self.new }
        ensures ordered { IsOrdered self.new }
        ensures count { length (world_in self.new).parties ≡ length (world_in self.old).parties }
        ensures same { IfOk result (λ b. b ≡ false → world_in self.new ≡ world_in self.old) }
        ensures idle { IfOk result (λ b. b ≡ false → act_of (world_in self.old) party ≡ None) }
        ensures busy { IfOk result (λ b. b ≡ true →
            steps_left (world_in self.new) < steps_left (world_in self.old)) }
    {
        let acted = self.tried(party)?;
        if acted {
            while self.tried(party)? {}
        }
        Ok(acted)
    }

    /// Gives each party in file order its turn. Answers whether somebody acted.
    fn round(&mut self) -> Result<bool, NoMemory>
        requires few { length (world_in self.old).parties ≤ limits.parties }
        requires ordered { IsOrdered self.old }
        ensures ok { OnOk result (GoesBy IsRound self.old self.new) }
        ensures err { OnErr result (BreaksOff IsRound self.old self.new) }
        ensures on { GoesOn self.old self.new }
        ensures ordered { IsOrdered self.new }
        ensures count { length (world_in self.new).parties ≡ length (world_in self.old).parties }
        ensures same { IfOk result (λ b. b ≡ false → world_in self.new ≡ world_in self.old) }
        ensures settled { IfOk result (λ b. b ≡ false → IsSettled (world_in self.new)) }
        ensures busy { IfOk result (λ b. b ≡ true →
            steps_left (world_in self.new) < steps_left (world_in self.old)) }
    {
        let mut acted = false;
        for party in 0..self.machines.len() {
            if self.turn(party as u16)? {
                acted = true;
            }
        }
        Ok(acted)
    }

    /// Rounds of all parties, until one has no act.
    pub fn finish(&mut self) -> Result<(), NoMemory>
        requires few { length (world_in self.old).parties ≤ limits.parties }
        requires ordered { IsOrdered self.old }
        ensures ok { OnOk result (GoesBy IsFinished self.old self.new) }
        ensures err { OnErr result (BreaksOff IsFinished self.old self.new) }
        ensures on { GoesOn self.old self.new }
        ensures ordered { IsOrdered self.new }
        ensures count { length (world_in self.new).parties ≡ length (world_in self.old).parties }
        ensures settled { OnOk result (IsSettled (world_in self.new)) }
    {
        while self.round()? {}
        Ok(())
    }
}

/// The parties before their first steps.
fn first_machines(alloc: Global, file: &File) -> Result<Vec<Machine>, NoMemory>
    requires { IsAccepted (file_of file.now) }
    ensures { IfOk result (λ ms. map program_at ms.items ≡ (start_of (file_of file.now)).parties) }
{
    let mut machines = Vec::new(alloc);
    for party in 0..file.parties.len() {
        machines.push(Machine::start(alloc, file, party as u16)?)?;
    }
    Ok(machines)
}

/// The sessions before any act.
fn first_sessions(
    alloc: Global,
    table: &Table,
    connects: &[Connect],
) -> Result<Vec<Session>, NoMemory>
    ensures { IfOk result (λ zs. sessions_at table.now zs.items
        ≡ map (connected_session table.now) (map connect_of connects.now)) }
{
    let mut sessions = Vec::new(alloc);
    for connect in connects {
        sessions.push(Session::start(alloc, table, connect))?;
    }
    Ok(sessions)
}
