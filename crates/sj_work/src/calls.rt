//! Calls of a party whose steps come from outside.
ghost use Rattle.std.specs.Prelude.{◌≡◌, ◌+◌, ◌<◌, IfOk, IsErrOf, OnErr, OnOk, None, Some, is_some, true};
ghost use Rattle.sj_end.specs.declared.note.Event.TheVariants as events;
ghost use Rattle.sj_node.specs.Calls.{call_of, place_here, program_of};
ghost use Rattle.sj_node.specs.Halts.{accept_stop, request_stop};
ghost use Rattle.sj_node.specs.Node.{Does, Stays, clock_of, offers_of, requests_of};
ghost use Rattle.sj_node.specs.Requests.{accept_note, accepted_by, request_note, requested_by};
ghost use Rattle.sj_node.specs.Seats.{call_note, call_stop, head_taken, is_take, takes_known, want_at};
ghost use Rattle.sj_node.specs.declared.refusal.Halt.TheVariants as halts;
ghost use Rattle.sj_rules.specs.Limits.{clock_end};
ghost use Rattle.sj_rules.specs.Node as rules;
ghost use Rattle.sj_work.specs.Views.{lanes_of, looks_of, node_of, stop_of};

use crate::acts::show;
use crate::worker::{Gate, Worker};
use sj_base::{EndId, Msg};
use sj_node::{Call, Halt};
use sj_table::Spot;

impl<O, I> Worker<O, I> {
    /// Does the call at the node, whatever the program is, and shows the event; the message that it
    /// takes, if any. What it posts waits for a turn. Whatever it refuses, the node is as it was.
    pub fn call<G: Gate>(&mut self, call: Call, gate: &G) -> Result<Option<Msg>, Halt>
        requires clock { clock_of (node_of self.old) < clock_end }

        // The row of the rules, noted.
        ensures ok { let old = node_of self.old in OnOk result
            (Does old (call_of old (want_at old call)) (clock_of old + 1) events.Act (call_note old call)
            (node_of self.new)) }
        ensures taken { IfOk result (λ m. m ≡ head_taken (node_of self.old) call) }
        ensures takes { IfOk result (λ m. is_some m ≡ is_take call) }

        // A refusal, and its cause.
        ensures err { OnErr result (Stays (node_of self.old) (node_of self.new)) }
        ensures unfit { let old = node_of self.old in IsErrOf result Halt.Unfit →
            takes_known old call ≡ true → call_of old (want_at old call) ≡ None }
        ensures at_limit { IsErrOf result Halt.AtLimit →
            call_stop (node_of self.old) call ≡ Some halts.AtLimit }
        ensures waits { IsErrOf result Halt.Waits →
            call_stop (node_of self.old) call ≡ Some halts.Waits }
        ensures ended { IsErrOf result Halt.Ended → ⊥ }

        // What stays in any case.
        ensures program { program_of (node_of self.new) ≡ program_of (node_of self.old) }
        ensures lanes { lanes_of self.new ≡ lanes_of self.old }
        ensures stop { stop_of self.new ≡ stop_of self.old }
        ensures looks { looks_of self.new ≡ looks_of self.old }
    {
        match self.node.call(call) {
            Ok(msg) => {
                show(&self.node, gate);
                Ok(msg)
            }
            Err(halt) => Err(halt),
        }
    }
    /// Requests a session at that party, whatever the program is, and shows the event; its own end,
    /// which gets that place. Whatever it refuses, the node is as it was.
    pub fn call_request<G: Gate>(&mut self, place: Spot, to: u16, gate: &G) -> Result<EndId, Halt>
        requires clock { clock_of (node_of self.old) < clock_end }

        // The row of the rules, noted.
        ensures ok { let old = node_of self.old in OnOk result
            (Does old (call_of old (rules.requests (place_here old place) to)) (clock_of old + 1)
            events.Act (request_note old to) (node_of self.new)) }
        ensures opened { IfOk result (λ e. e ≡ requested_by (node_of self.old)) }

        // A refusal, and its cause.
        ensures err { OnErr result (Stays (node_of self.old) (node_of self.new)) }
        ensures unfit { let old = node_of self.old in IsErrOf result Halt.Unfit →
            call_of old (rules.requests (place_here old place) to) ≡ None }
        ensures at_limit { IsErrOf result Halt.AtLimit →
            request_stop (requests_of (node_of self.old)) ≡ Some halts.AtLimit }
        ensures waits { IsErrOf result Halt.Waits → ⊥ }
        ensures ended { IsErrOf result Halt.Ended → ⊥ }

        // What stays in any case.
        ensures program { program_of (node_of self.new) ≡ program_of (node_of self.old) }
        ensures lanes { lanes_of self.new ≡ lanes_of self.old }
        ensures stop { stop_of self.new ≡ stop_of self.old }
        ensures looks { looks_of self.new ≡ looks_of self.old }
    {
        match self.node.call_request(place, to) {
            Ok(end) => {
                show(&self.node, gate);
                Ok(end)
            }
            Err(halt) => Err(halt),
        }
    }

    /// Accepts the next session that the party offers, whatever the program is, and shows the
    /// event; its own end, which gets that place. Whatever it refuses, the node is as it was.
    pub fn call_accept<G: Gate>(&mut self, place: Spot, from: u16, gate: &G) -> Result<EndId, Halt>
        requires clock { clock_of (node_of self.old) < clock_end }

        // The row of the rules, noted.
        ensures ok { let old = node_of self.old in OnOk result
            (Does old (call_of old (rules.accepts (place_here old place) from)) (clock_of old + 1)
            events.Act (accept_note old from) (node_of self.new)) }
        ensures opened { IfOk result (λ e. Some e ≡ accepted_by (node_of self.old) from) }

        // A refusal, and its cause.
        ensures err { OnErr result (Stays (node_of self.old) (node_of self.new)) }
        ensures unfit { let old = node_of self.old in IsErrOf result Halt.Unfit →
            call_of old (rules.accepts (place_here old place) from) ≡ None }
        ensures waits { IsErrOf result Halt.Waits →
            accept_stop (offers_of (node_of self.old)) from ≡ Some halts.Waits }
        ensures at_limit { IsErrOf result Halt.AtLimit → ⊥ }
        ensures ended { IsErrOf result Halt.Ended → ⊥ }

        // What stays in any case.
        ensures program { program_of (node_of self.new) ≡ program_of (node_of self.old) }
        ensures lanes { lanes_of self.new ≡ lanes_of self.old }
        ensures stop { stop_of self.new ≡ stop_of self.old }
        ensures looks { looks_of self.new ≡ looks_of self.old }
    {
        match self.node.call_accept(place, from) {
            Ok(end) => {
                show(&self.node, gate);
                Ok(end)
            }
            Err(halt) => Err(halt),
        }
    }
}
