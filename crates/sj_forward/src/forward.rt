//! The forwarding world of an accepted file.
ghost use Rattle.std.specs.Prelude.{◌≡◌, ◌↔◌, ◌+◌, ◌<◌, ◌++◌, [], Some, false, IfOk, IsErrOf, OnErr, OnOk, length};
ghost use Rattle.sj_check.specs.Held.{file_in as held};
ghost use Rattle.sj_forward.specs.ForwarderWorld.{ComesFrom, event_at};
ghost use Rattle.sj_forward.specs.Draining.{BreaksOff, GoesBy, IsDrained};
ghost use Rattle.sj_forward_rules.specs.Drain.{deliveries_by};
ghost use Rattle.sj_forward_rules.specs.Ready.{has_step};
ghost use Rattle.sj_forward_rules.specs.Start.{forward_start};
ghost use Rattle.sj_forward_rules.specs.World.{IsQuietAmong, happens};
ghost use Rattle.sj_lang.specs.FileView.{file_of};
ghost use Rattle.sj_plain.specs.SharedFile.{without_words};
ghost use Rattle.sj_plain.specs.Plain.{acts_of, world_at};
ghost use Rattle.sj_rules.specs.Events.{acts_by};
ghost use Rattle.sj_rules.specs.Party.{play_of};
ghost use Rattle.sj_semantics.specs.Run.{end_of};

use crate::forwarder_world::ForwarderWorld;
use crate::{Turn, TurnRefusal};
use sj_base::NoMemory;
use sj_check::Accepted;
use sj_plain::Plain;
use std::alloc::Global;
use std::marker::Model;

/// The parties of an accepted file, what they keep of ends, and the lanes between them, as the
/// turns so far have left them.
#[derive(Drop)]
pub struct ForwardWorld {
    forwarder_world: ForwarderWorld,
}

impl Model for ForwardWorld {
    ghost use Rattle.sj_forward.specs.declared.forwarder_world.ForwarderWorld.{ForwarderWorld};
    ghost use Rattle.sj_forward.specs.contracts.forwarder_world.ForwarderWorld as c;

    ghost Value = { ForwarderWorld };

    ghost coded = { c.the_row.coded };

    ghost use Rattle.sj_forward.specs.ForwarderWorld.{IsReached};

    ghost view = { λ w. w.forwarder_world };

    ghost invariant = { λ w. IsReached w.forwarder_world };
}

impl ForwardWorld {
    ghost use Rattle.sj_forward.specs.Forward.{IsDrainedOf, IsForwarded, StaysAt, forward_at, kept_file, party_count, passed_of, plain_of};

    /// The parties of the file before any turn.
    pub fn start(alloc: Global, accepted: &Accepted) -> Result<ForwardWorld, NoMemory>
        // The file's start.
        ensures kept { IfOk result (λ w. kept_file w ≡ without_words (file_of (held accepted.now))) }
        ensures world { IfOk result (λ w. forward_at w ≡ forward_start (file_of (held accepted.now))) }
        ensures acts { IfOk result (λ w. acts_of (plain_of w) ≡ []) }
        ensures passed { IfOk result (λ w. passed_of w ≡ 0) }

        // What is true of every world.
        ensures run { IfOk result (λ w. IsForwarded w) }
        ensures parties { IfOk result (λ w. party_count w ≡ length (kept_file w).parties) }
    {
        let forwarder_world = ForwarderWorld::begin(alloc, accepted)?;
        Ok(ForwardWorld { forwarder_world })
    }

    /// The parties of the file after all turns.
    pub fn drained(alloc: Global, accepted: &Accepted) -> Result<ForwardWorld, NoMemory>
        ensures kept { IfOk result (λ w. kept_file w ≡ without_words (file_of (held accepted.now))) }
        ensures drained { IfOk result (λ w. IsDrainedOf (file_of (held accepted.now)) w) }
        ensures run { IfOk result (λ w. IsForwarded w) }
    {
        let mut world = ForwardWorld::start(alloc, accepted)?;
        world.drain()?;
        Ok(world)
    }

    /// One turn of that party. Whatever it refuses, the world is as it was.
    pub fn step(&mut self, party: u16, turn: Turn) -> Result<(), TurnRefusal>
        requires there { party < party_count self.old }
        requires origin { ComesFrom turn (party_count self.old) }

        // The turn is a step, and it counts as an act or a delivery.
        ensures ok { OnOk result (happens (play_of (kept_file self.old)) (forward_at self.old)
            party (event_at turn) ≡ Some (forward_at self.new)) }
        ensures acts { OnOk result (acts_of (plain_of self.new)
            ≡ acts_of (plain_of self.old) ++ acts_by (event_at turn) party) }
        ensures passed { OnOk result (passed_of self.new
            ≡ passed_of self.old + deliveries_by (event_at turn)) }

        // What is true of every world, and what no turn changes.
        ensures run { IsForwarded self.new }
        ensures kept { kept_file self.new ≡ kept_file self.old }
        ensures parties { party_count self.new ≡ length (kept_file self.new).parties }

        // A refusal changes nothing.
        ensures err { OnErr result (StaysAt self.old self.new) }

        // The lane is empty, or the party isn't ready by what it holds, and only then.
        ensures no_step { IsErrOf result TurnRefusal.NoStep ↔
            (has_step (play_of (kept_file self.old)) (forward_at self.old) party (event_at turn) ≡ false) }
    {
        self.forwarder_world.step(party, turn)
    }

    /// Does rounds until one has no turn. In a round each party, in order, takes the frames of each
    /// lane to it until that is empty, and then acts until it can't. Without memory it breaks off.
    pub fn drain(&mut self) -> Result<(), NoMemory>
        // The turns are those of the rounds, and nothing is left to do.
        ensures drained { OnOk result (GoesBy (IsDrained self.old (party_count self.old)) self.old self.new) }
        ensures quiet { OnOk result (IsQuietAmong (play_of (kept_file self.new)) (party_count self.new) (forward_at self.new)) }

        // The end of the file.
        ensures end { OnOk result (world_at (plain_of self.new) ≡ end_of (kept_file self.new)) }

        // Where it breaks off its turns are the first of such a drain.
        ensures err { OnErr result (BreaksOff (IsDrained self.old (party_count self.old)) self.old self.new) }

        // What is true of every world, and what no turn changes.
        ensures run { IsForwarded self.new }
        ensures kept { kept_file self.new ≡ kept_file self.old }
        ensures parties { party_count self.new ≡ length (kept_file self.new).parties }
    {
        self.forwarder_world.drain()
    }

    /// How many frames were delivered.
    pub fn passed(&self) -> u64
        ensures { result ≡ passed_of self.now }
    {
        self.forwarder_world.passed
    }

    /// The plain world that the acts have reached.
    pub fn plain(&self) -> &Plain
        ensures value { result.now ≡ plain_of self.now }
        ensures parties { party_count self.now ≡ length (kept_file self.now).parties }
    {
        &self.forwarder_world.plain
    }
}
