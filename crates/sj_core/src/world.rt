//! The core world of an accepted file.
ghost use Rattle.std.specs.Prelude.{◌≡◌, ◌↔◌, ◌<◌, ◌++◌, ◌∷◌, [], None, Some, IfErr, IfOk, IsErrOf};
ghost use Rattle.std.specs.Prelude.{IsTrue, OnErr, OnOk, length, map, max, option_map};
ghost use Rattle.sj_core.specs.Draining.{BreaksOff, GoesBy, IsDrained};
ghost use Rattle.sj_core.specs.Nodes.{ComesFrom};
ghost use Rattle.sj_core.specs.Replaying.{IsRefusedSo};
ghost use Rattle.sj_core.specs.Views.{event_at, line_at, line_with};
ghost use Rattle.sj_rules.specs.History.{IsHistory, IsLog, IsQuiescent, IsQuietAmong, due};
ghost use Rattle.sj_rules.specs.Party.{play_of};
ghost use Rattle.sj_rules.specs.World.{happens};

use crate::node_world::NodeWorld;
use crate::{ReplayRefusal, StepRefusal};
use sj_base::NoMemory;
use sj_end::{Entry, Event, Line};
use std::marker::Model;

/// The parties of an accepted file and the lanes between them, as the events so far have left them.
#[derive(Drop)]
pub struct World {
    pub(crate) node_world: NodeWorld,
}

impl Model for World {
    ghost use Rattle.sj_core.specs.declared.node_world.NodeWorld.{NodeWorld};
    ghost use Rattle.sj_core.specs.contracts.node_world.NodeWorld as c;

    ghost Value = { NodeWorld };

    ghost coded = { c.the_row.coded };

    ghost use Rattle.sj_core.specs.NodeWorld.{IsReached};

    ghost view = { λ w. w.node_world };

    ghost invariant = { λ w. IsReached w.node_world };
}

impl World {
    ghost use Rattle.sj_core.specs.World.{history_of, kept_file, party_count, world_at};

    /// How many parties there are.
    pub fn parties(&self) -> usize
        ensures count { result ≡ party_count self.now }
        ensures kept { result ≡ length (kept_file self.now).parties }
    {
        self.node_world.nodes.len()
    }

    /// One event at that party. Whatever it refuses, the world is as it was.
    pub fn step(&mut self, party: u16, event: Event) -> Result<Entry, StepRefusal>
        requires there { party < party_count self.old }
        requires origin { ComesFrom event (party_count self.old) }

        // The event is a step, and the entry is the one that is due.
        ensures ok { IfOk result (λ e. happens (play_of (kept_file self.old)) max (world_at self.old)
            party (event_at event) ≡ Some (world_at self.new)) }
        ensures entry { IfOk result (λ e. due (play_of (kept_file self.old)) max (world_at self.old)
            party (event_at event) ≡ Some (line_with party e)) }
        ensures listed { IfOk result (λ e. history_of self.new ≡ history_of self.old ++ line_with party e ∷ []) }

        // What is true of every world, and what no event changes.
        ensures run { IsHistory max (kept_file self.new) (history_of self.new) (world_at self.new) }
        ensures kept { kept_file self.new ≡ kept_file self.old }
        ensures parties { party_count self.new ≡ length (kept_file self.new).parties }

        // A refusal changes nothing.
        ensures err { OnErr result (world_at self.new ≡ world_at self.old) }
        ensures err_history { OnErr result (history_of self.new ≡ history_of self.old) }

        // There is no such step, and only then.
        ensures no_step { IsErrOf result StepRefusal.NoStep ↔
            (happens (play_of (kept_file self.old)) max (world_at self.old) party (event_at event) ≡ None) }
    {
        self.node_world.step(party, event)
    }

    /// Does all the lines again, up to the first that isn't the one that is due there. That one is
    /// not done. Where a line names a party that the file hasn't, none is due.
    pub fn replay(&mut self, lines: &[Line]) -> Result<(), ReplayRefusal>
        // Each line is the one that is due.
        ensures ok { OnOk result (IsLog (play_of (kept_file self.old)) max (world_at self.old)
            (map line_at lines.now) (world_at self.new)) }
        ensures listed { OnOk result (history_of self.new ≡ history_of self.old ++ map line_at lines.now) }

        // The first line that isn't, before which all are done; without memory some of them are.
        ensures refused { IfErr result (λ r. IsRefusedSo self.old lines.now r self.new) }

        // What is true of every world, and what no event changes.
        ensures run { IsHistory max (kept_file self.new) (history_of self.new) (world_at self.new) }
        ensures kept { kept_file self.new ≡ kept_file self.old }
        ensures parties { party_count self.new ≡ length (kept_file self.new).parties }
    {
        self.node_world.replay(lines)
    }

    /// The line that is due for the event at that party; none where it is illegal, or names a party
    /// that the file hasn't.
    pub fn due(&self, party: u16, event: Event) -> Option<Line>
        ensures { due (play_of (kept_file self.now)) max (world_at self.now) party (event_at event)
            ≡ option_map line_at result }
    {
        self.node_world.due_line(party, event)
    }

    /// What happened so far, in order.
    pub fn history(&self) -> &[Line]
        ensures { map line_at result.now ≡ history_of self.now }
    {
        &self.node_world.history
    }

    /// Does rounds until one has no event. In a round each party, in order, takes the frames of
    /// each lane to it until that is empty, and then acts until it can't. Without memory it breaks
    /// off.
    pub fn drain(&mut self) -> Result<(), NoMemory>
        // The events are those of the rounds, and nothing is left to do.
        ensures drained { OnOk result (GoesBy (IsDrained self.old (party_count self.old)) self.old self.new) }
        ensures quiet { OnOk result (IsQuietAmong (play_of (kept_file self.new)) (party_count self.new) (world_at self.new)) }

        // Where it breaks off its events are the first of such a drain.
        ensures err { OnErr result (BreaksOff (IsDrained self.old (party_count self.old)) self.old self.new) }

        // What is true of every world, and what no event changes.
        ensures run { IsHistory max (kept_file self.new) (history_of self.new) (world_at self.new) }
        ensures kept { kept_file self.new ≡ kept_file self.old }
        ensures parties { party_count self.new ≡ length (kept_file self.new).parties }
    {
        self.node_world.drain()
    }

    /// Whether nothing is left to do: nothing is in a lane, and no party can act.
    pub fn quiet(&self) -> bool
        ensures among { IsTrue result ↔ IsQuietAmong (play_of (kept_file self.now)) (party_count self.now) (world_at self.now) }
        ensures whole { IsTrue result ↔ IsQuiescent (play_of (kept_file self.now)) (world_at self.now) }
    {
        self.node_world.quiet()
    }
}
