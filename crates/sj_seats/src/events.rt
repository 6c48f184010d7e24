//! The events of a world with seats: acts of parties that go by the file, and deliveries.
ghost use Rattle.std.specs.Prelude.{◌≡◌, ◌<◌, ◌++◌, ◌∷◌, [], None, false, IfNone, IfOk, IfSome, OnErr, OnOk, length};
ghost use Rattle.sj_core.specs.Refusals.{IsStop};
ghost use Rattle.sj_core.specs.Views.{line_with};
ghost use Rattle.sj_node.specs.Node.{log_of};
ghost use Rattle.sj_node.specs.Reading.{TakesEntry};
ghost use Rattle.sj_rules.specs.World.{Act, Deliver};
ghost use Rattle.sj_seats.specs.Core.{is_seat};
ghost use Rattle.sj_seats.specs.Played.{IsEmpty, IsLed, IsStill, Redoes, Rests, chairs_in, nodes_in};

use crate::played::PlayedWorld;
use sj_base::NoMemory;
use sj_end::Entry;
use sj_node::{DeliverRefusal, Halt, Node};

/// What the node noted last, taken out of its log: the history keeps it.
pub(crate) fn noted(node: &mut Node) -> Entry
    requires { 0 < length (log_of node.old) }
    ensures entry { log_of node.old ≡ log_of node.new ++ result ∷ [] }
    ensures rest { TakesEntry node.old node.new }
{
    match node.take_entry() {
        Some(entry) => entry,
        None => unreachable!(),
    }
}

/// Why a party that goes by the file can't act: by the rules, or for memory. Its act is never unfit.
fn stopped(halt: Halt) -> Result<Option<Entry>, NoMemory>
    requires { halt ≡ Halt.Unfit → ⊥ }
    ensures none { IfOk result (λ o. o ≡ None) }
    ensures stop { OnOk result (IsStop halt) }
{
    match halt {
        Halt::Ended | Halt::AtLimit | Halt::Waits => Ok(None),
        Halt::NoMemory => Err(NoMemory),
        Halt::Unfit => unreachable!(),
    }
}

/// A frame that is in a lane is never unfit.
fn without_memory(refusal: DeliverRefusal) -> NoMemory
    requires { refusal ≡ DeliverRefusal.Unfit → ⊥ }
{
    match refusal {
        DeliverRefusal::NoMemory => NoMemory,
        DeliverRefusal::Unfit => unreachable!(),
    }
}

impl PlayedWorld {
    /// The next act of a party that goes by the file, where it can act. It isn't listed.
    pub fn act(&mut self, party: u16) -> Result<Option<Entry>, NoMemory>
        requires led { IsLed self.old }
        requires there { party < length (nodes_in self.old) }
        requires own { is_seat (chairs_in self.old) party ≡ false }
        ensures done { IfOk result (λ o. IfSome o (λ e. Redoes self.old (line_with party e) self.new)) }
        ensures none { IfOk result (λ o. IfNone o (Rests self.old self.new)) }
        ensures still { IfOk result (λ o. IfNone o (IsStill self.old party)) }
        ensures err { OnErr result (Rests self.old self.new) }
        ensures history { self.new.history ≡ self.old.history }
        ensures chairs { chairs_in self.new ≡ chairs_in self.old }
        ensures event { IfOk result (λ o. IfSome o (λ e. (line_with party e).entry.event ≡ Act)) }
    {
        let node = &mut self.nodes[party as usize];
        match node.act() {
            Ok(()) => Ok(Some(noted(node))),
            Err(halt) => stopped(halt),
        }
    }

    /// The front frame of the lane from that party is delivered to the party, whoever plays it. It
    /// isn't listed.
    pub fn deliver(&mut self, party: u16, from: u16) -> Result<Option<Entry>, NoMemory>
        requires led { IsLed self.old }
        requires there { party < length (nodes_in self.old) }
        requires origin { from < length (nodes_in self.old) }
        ensures done { IfOk result (λ o. IfSome o (λ e. Redoes self.old (line_with party e) self.new)) }
        ensures none { IfOk result (λ o. IfNone o (Rests self.old self.new)) }
        ensures empty { IfOk result (λ o. IfNone o (IsEmpty self.old from party)) }
        ensures err { OnErr result (Rests self.old self.new) }
        ensures history { self.new.history ≡ self.old.history }
        ensures chairs { chairs_in self.new ≡ chairs_in self.old }
        ensures event { IfOk result (λ o. IfSome o (λ e. (line_with party e).entry.event ≡ Deliver from)) }
    {
        let Some(frame) = self.nodes[from as usize].take_out(party) else {
            return Ok(None);
        };
        let node = &mut self.nodes[party as usize];
        match node.deliver(from, frame) {
            Ok(()) => Ok(Some(noted(node))),
            Err((frame, refusal)) => {
                self.nodes[from as usize].put_back(party, frame);
                Err(without_memory(refusal))
            }
        }
    }
}
