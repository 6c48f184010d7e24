//! What is due in a world, and whether anything is.
ghost use Rattle.std.specs.Prelude.{◌≡◌, ◌↔◌, ◌<◌, false, IfSome, IsTrue, length, max, option_map};
ghost use Rattle.sj_core.specs.Nodes.{ComesFrom};
ghost use Rattle.sj_core.specs.Quiet.{IsAbroad, IsIdleAmong};
ghost use Rattle.sj_core.specs.Views.{event_at, line_at, line_with};
ghost use Rattle.sj_end.specs.declared.note.Event.TheVariants as events;
ghost use Rattle.sj_rules.specs.History.{IsQuiescent, IsQuietAmong, due};
ghost use Rattle.sj_rules.specs.Party.{play_of};

use crate::node_world::NodeWorld;
use sj_end::{Entry, Event, Line, note_of};

impl NodeWorld {
    ghost use Rattle.sj_core.specs.NodeWorld.{IsLed, file_in, nodes_in, world_in};

    // The entry of the delivery of the front frame of the lane from that party.
    fn arrival(&self, party: u16, from: u16) -> Option<Entry>
        requires led { IsLed self.now }
        requires there { party < length (nodes_in self.now) }
        requires origin { from < length (nodes_in self.now) }
        ensures { due (play_of (file_in self.now)) max (world_in self.now) party (event_at (events.Deliver from))
            ≡ option_map (line_with party) result }
    {
        let Some(frame) = self.nodes[from as usize].front(party) else {
            return None;
        };
        let node = &self.nodes[party as usize];
        Some(Entry {
            clock: node.clock().max(frame.clock) + 1,
            event: Event::Deliver(from),
            note: note_of(&frame.body),
        })
    }

    /// The entry that is due for the event; none where it is illegal.
    pub fn due(&self, party: u16, event: Event) -> Option<Entry>
        requires led { IsLed self.now }
        requires there { party < length (nodes_in self.now) }
        requires origin { ComesFrom event (length (nodes_in self.now)) }
        ensures { due (play_of (file_in self.now)) max (world_in self.now) party (event_at event)
            ≡ option_map (line_with party) result }
    {
        match event {
            Event::Act => self.nodes[party as usize].due(),
            Event::Deliver(from) => self.arrival(party, from),
        }
    }

    /// Whether the event names parties of the file alone.
    pub fn is_there(&self, party: u16, event: Event) -> bool
        ensures party { IsTrue result → party < length (nodes_in self.now) }
        ensures origin { IsTrue result → ComesFrom event (length (nodes_in self.now)) }
        ensures absent { result ≡ false → IsAbroad party event (length (nodes_in self.now)) }
    {
        if party as usize >= self.nodes.len() {
            return false;
        }
        match event {
            Event::Act => true,
            Event::Deliver(from) => (from as usize) < self.nodes.len(),
        }
    }

    /// The line that is due for the event; none where it is illegal, or names a party that the file
    /// hasn't.
    pub fn due_line(&self, party: u16, event: Event) -> Option<Line>
        requires led { IsLed self.now }
        ensures due { due (play_of (file_in self.now)) max (world_in self.now) party (event_at event)
            ≡ option_map line_at result }
        ensures there { IfSome result (λ l. party < length (nodes_in self.now)) }
        ensures origin { IfSome result (λ l. ComesFrom event (length (nodes_in self.now))) }
    {
        if !self.is_there(party, event) {
            return None;
        }
        let Some(entry) = self.due(party, event) else {
            return None;
        };
        Some(Line { party, entry })
    }

    // Whether no frame waits for the party and it can't act.
    fn is_idle(&self, party: u16) -> bool
        requires led { IsLed self.now }
        requires there { party < length (nodes_in self.now) }
        ensures { IsTrue result ↔ IsIdleAmong (play_of (file_in self.now))
            (length (nodes_in self.now)) (world_in self.now) party }
    {
        let can_act = self.nodes[party as usize].due().is_some();
        if can_act {
            return false;
        }
        for from in 0..self.nodes.len() {
            if self.nodes[from].front(party).is_some() {
                return false;
            }
        }
        true
    }

    // Whether no party has anything to do.
    fn all_idle(&self) -> bool
        requires led { IsLed self.now }
        ensures { IsTrue result ↔ IsQuietAmong (play_of (file_in self.now))
            (length (nodes_in self.now)) (world_in self.now) }
    {
        for party in 0..self.nodes.len() {
            if !self.is_idle(party as u16) {
                return false;
            }
        }
        true
    }

    /// Whether nothing is in a lane and no party can act.
    pub fn quiet(&self) -> bool
        requires led { IsLed self.now }
        ensures among { IsTrue result ↔ IsQuietAmong (play_of (file_in self.now))
            (length (nodes_in self.now)) (world_in self.now) }
        ensures whole { IsTrue result ↔ IsQuiescent (play_of (file_in self.now)) (world_in self.now) }
    {
        self.all_idle()
    }
}
