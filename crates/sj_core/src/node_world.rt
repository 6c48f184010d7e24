//! A core world as its nodes lie in memory, and its history.
ghost use Rattle.std.specs.Prelude.{◌≡◌, ◌↔◌, ◌<◌, ◌++◌, ◌∷◌, [], None, IfOk, IsErrOf, OnErr, length, max};
ghost use Rattle.sj_core.specs.Nodes.{ComesFrom, Moves, NodesStay};
ghost use Rattle.sj_core.specs.Refusals.{IsStop};
ghost use Rattle.sj_core.specs.Views.{event_at, line_with};
ghost use Rattle.sj_end.specs.declared.note.Event.TheVariants as events;
ghost use Rattle.sj_node.specs.Node.{log_of};
ghost use Rattle.sj_node.specs.Reading.{TakesEntry};
ghost use Rattle.sj_rules.specs.Party.{play_of};
ghost use Rattle.sj_rules.specs.World.{happens};

use crate::StepRefusal;
use sj_end::{Entry, Event, Line};
use sj_node::{DeliverRefusal, Halt, Node};
use sj_plain::SharedFile;
use std::alloc::Global;

/// A file, the nodes of its parties, and what happened so far.
#[derive(Drop)]
pub struct NodeWorld {
    pub alloc: Global,
    pub kept: SharedFile,
    pub nodes: Vec<Node>,
    pub history: Vec<Line>,
}

// The act of a party that halts is illegal. An act is never unfit.
fn refusal_of(halt: Halt) -> StepRefusal
    requires { halt ≡ Halt.Unfit → ⊥ }
    ensures { (result ≡ StepRefusal.NoStep) ↔ IsStop halt }
{
    match halt {
        Halt::Ended | Halt::AtLimit | Halt::Waits => StepRefusal::NoStep,
        Halt::NoMemory => StepRefusal::NoMemory,
        Halt::Unfit => unreachable!(),
    }
}

// A frame that is in a lane is never unfit.
fn without_memory(refusal: DeliverRefusal) -> StepRefusal
    requires { refusal ≡ DeliverRefusal.Unfit → ⊥ }
    ensures { result ≡ StepRefusal.NoMemory }
{
    match refusal {
        DeliverRefusal::NoMemory => StepRefusal::NoMemory,
        DeliverRefusal::Unfit => unreachable!(),
    }
}

// What the node noted last, taken out of its log: the history keeps it.
fn noted(node: &mut Node) -> Entry
    requires { 0 < length (log_of node.old) }
    ensures entry { log_of node.old ≡ log_of node.new ++ result ∷ [] }
    ensures rest { TakesEntry node.old node.new }
{
    match node.take_entry() {
        Some(entry) => entry,
        None => unreachable!(),
    }
}

impl NodeWorld {
    ghost use Rattle.sj_core.specs.NodeWorld.{IsLed, IsReached, StaysIn, Steps, file_in, nodes_in, world_in};

    // The party's next act.
    fn act(&mut self, party: u16) -> Result<Entry, StepRefusal>
        requires led { IsLed self.old }
        requires there { party < length (nodes_in self.old) }
        ensures ok { IfOk result (λ e. Moves (file_in self.old) (nodes_in self.old) party events.Act e (nodes_in self.new)) }
        ensures none { IsErrOf result StepRefusal.NoStep ↔
            (happens (play_of (file_in self.old)) max (world_in self.old) party (event_at events.Act) ≡ None) }
        ensures err { OnErr result (NodesStay (file_in self.old) (nodes_in self.old) (nodes_in self.new)) }
        ensures file { file_in self.new ≡ file_in self.old }
        ensures history { self.new.history ≡ self.old.history }
    {
        let node = &mut self.nodes[party as usize];
        match node.act() {
            Ok(()) => Ok(noted(node)),
            Err(halt) => Err(refusal_of(halt)),
        }
    }

    // The front frame of the lane from that party is delivered to the party.
    fn deliver(&mut self, party: u16, from: u16) -> Result<Entry, StepRefusal>
        requires led { IsLed self.old }
        requires there { party < length (nodes_in self.old) }
        requires origin { from < length (nodes_in self.old) }
        ensures ok { IfOk result (λ e. Moves (file_in self.old) (nodes_in self.old) party (events.Deliver from) e (nodes_in self.new)) }
        ensures none { IsErrOf result StepRefusal.NoStep ↔
            (happens (play_of (file_in self.old)) max (world_in self.old) party (event_at (events.Deliver from)) ≡ None) }
        ensures err { OnErr result (NodesStay (file_in self.old) (nodes_in self.old) (nodes_in self.new)) }
        ensures file { file_in self.new ≡ file_in self.old }
        ensures history { self.new.history ≡ self.old.history }
    {
        let Some(frame) = self.nodes[from as usize].take_out(party) else {
            return Err(StepRefusal::NoStep);
        };
        let node = &mut self.nodes[party as usize];
        match node.deliver(from, frame) {
            Ok(()) => Ok(noted(node)),
            Err((frame, refusal)) => {
                self.nodes[from as usize].put_back(party, frame);
                Err(without_memory(refusal))
            }
        }
    }

    /// One event, without its line.
    pub fn happen(&mut self, party: u16, event: Event) -> Result<Entry, StepRefusal>
        requires led { IsLed self.old }
        requires there { party < length (nodes_in self.old) }
        requires origin { ComesFrom event (length (nodes_in self.old)) }
        ensures ok { IfOk result (λ e. Moves (file_in self.old) (nodes_in self.old) party event e (nodes_in self.new)) }
        ensures none { IsErrOf result StepRefusal.NoStep ↔
            (happens (play_of (file_in self.old)) max (world_in self.old) party (event_at event) ≡ None) }
        ensures err { OnErr result (NodesStay (file_in self.old) (nodes_in self.old) (nodes_in self.new)) }
        ensures file { file_in self.new ≡ file_in self.old }
        ensures history { self.new.history ≡ self.old.history }
    {
        match event {
            Event::Act => self.act(party),
            Event::Deliver(from) => self.deliver(party, from),
        }
    }

    /// One event, with its line.
    pub fn step(&mut self, party: u16, event: Event) -> Result<Entry, StepRefusal>
        requires reached { IsReached self.old }
        requires there { party < length (nodes_in self.old) }
        requires origin { ComesFrom event (length (nodes_in self.old)) }
        ensures ok { IfOk result (λ e. Steps self.old (line_with party e) self.new) }
        ensures event { IfOk result (λ e. event_at e.event ≡ event_at event) }
        ensures none { IsErrOf result StepRefusal.NoStep ↔
            (happens (play_of (file_in self.old)) max (world_in self.old) party (event_at event) ≡ None) }
        ensures err { OnErr result (StaysIn self.old self.new) }
        ensures reached { IsReached self.new }
        ensures file { file_in self.new ≡ file_in self.old }
        ensures count { length (nodes_in self.new) ≡ length (nodes_in self.old) }
    {
        if self.history.reserve(1).is_err() {
            return Err(self.without_room(party, event));
        }
        match self.happen(party, event) {
            Ok(entry) => {
                self.history.push_reserved(Line { party, entry });
                Ok(entry)
            }
            Err(refusal) => Err(refusal),
        }
    }

    // Why an event isn't done for which the history has no room.
    fn without_room(&self, party: u16, event: Event) -> StepRefusal
        requires led { IsLed self.now }
        requires there { party < length (nodes_in self.now) }
        requires origin { ComesFrom event (length (nodes_in self.now)) }
        ensures { (result ≡ StepRefusal.NoStep) ↔
            (happens (play_of (file_in self.now)) max (world_in self.now) party (event_at event) ≡ None) }
    {
        match self.due(party, event) {
            Some(_) => StepRefusal::NoMemory,
            None => StepRefusal::NoStep,
        }
    }
}
