//! Steps and calls that request a session or accept one.
ghost use Rattle.std.specs.Prelude.{◌≡◌, ◌+◌, ◌<◌, ◌↔◌, OnOk, OnErr, IfErr, IfOk, IsErrOf, None, Some};
ghost use Rattle.sj_end.specs.declared.note.Event.TheVariants as events;
ghost use Rattle.sj_node.specs.Calls.{call_of, place_here, program_of};
ghost use Rattle.sj_node.specs.Halts.{accept_stop, is_late, request_stop};
ghost use Rattle.sj_node.specs.Node.{Does, Stays, act_of, clock_of, connect_count, note_for, offers_of, requests_of, steps_of, wants_of};
ghost use Rattle.sj_node.specs.Requests.{accept_note, accepted_by, request_note, requested_by};
ghost use Rattle.sj_node.specs.declared.refusal.Halt.TheVariants as halts;
ghost use Rattle.sj_rules.specs.Limits.{clock_end, limit_of_requests, limit_of_steps};
ghost use Rattle.sj_rules.specs.Node as rules;
ghost use Rattle.sj_semantics.specs.declared.Want.TheVariants as wants;

use crate::halts::{accept_stop, request_stop};
use crate::{Halt, Node};
use sj_base::EndId;
use sj_table::Spot;

impl Node {
    /// Requests a session at that party, whatever the program is, which stays; its own end, which
    /// gets that place. Whatever it refuses, the node is as it was.
    pub fn call_request(&mut self, place: Spot, to: u16) -> Result<EndId, Halt>
        requires clock { clock_of self.old < clock_end }

        // The row of the rules, with the clock raised by one, and noted.
        ensures ok { OnOk result (Does self.old
            (call_of self.old (rules.requests (place_here self.old place) to))
            (clock_of self.old + 1) events.Act (request_note self.old to) self.new) }
        ensures opened { IfOk result (λ e. e ≡ requested_by self.old) }

        // A refusal changes nothing.
        ensures err { OnErr result (Stays self.old self.new) }

        // What stays in any case.
        ensures connects { connect_count self.new ≡ connect_count self.old }
        ensures program { program_of self.new ≡ program_of self.old }

        // It is unfit only where no row fits. At its limit is exact; it never waits or has ended.
        ensures unfit { IsErrOf result Halt.Unfit →
            call_of self.old (rules.requests (place_here self.old place) to) ≡ None }
        ensures at_limit { IsErrOf result Halt.AtLimit ↔
            (request_stop (requests_of self.old) ≡ Some halts.AtLimit) }
        ensures waits { IsErrOf result Halt.Waits → ⊥ }
        ensures ended { IsErrOf result Halt.Ended → ⊥ }
    {
        match request_stop(self.requests) {
            Some(halt) => Err(halt),
            None => self.request(place, to),
        }
    }

    /// Accepts the next session that the party offers, whatever the program is, which stays; its
    /// own end, which gets that place. Whatever it refuses, the node is as it was.
    pub fn call_accept(&mut self, place: Spot, from: u16) -> Result<EndId, Halt>
        requires clock { clock_of self.old < clock_end }

        // The row of the rules, with the clock raised by one, and noted.
        ensures ok { OnOk result (Does self.old
            (call_of self.old (rules.accepts (place_here self.old place) from))
            (clock_of self.old + 1) events.Act (accept_note self.old from) self.new) }
        ensures opened { IfOk result (λ e. Some e ≡ accepted_by self.old from) }

        // A refusal changes nothing.
        ensures err { OnErr result (Stays self.old self.new) }

        // What stays in any case.
        ensures connects { connect_count self.new ≡ connect_count self.old }
        ensures program { program_of self.new ≡ program_of self.old }

        // It is unfit only where no row fits. Waiting is exact; it never is at a limit or ended.
        ensures unfit { IsErrOf result Halt.Unfit →
            call_of self.old (rules.accepts (place_here self.old place) from) ≡ None }
        ensures waits { IsErrOf result Halt.Waits ↔
            (accept_stop (offers_of self.old) from ≡ Some halts.Waits) }
        ensures at_limit { IsErrOf result Halt.AtLimit → ⊥ }
        ensures ended { IsErrOf result Halt.Ended → ⊥ }
    {
        match accept_stop(&self.offers, from) {
            Some(halt) => Err(halt),
            None => self.accept(place, from),
        }
    }

    // A step that opens a session.
    pub(crate) fn step_request(&mut self, protocol: u16, to: u16) -> Result<(), Halt>
        requires step { wants_of self.old ≡ wants.Request protocol to }
        requires steps { steps_of self.old < limit_of_steps }
        requires clock { clock_of self.old < clock_end }
        requires requests { requests_of self.old < limit_of_requests }
        ensures ok { OnOk result (Does self.old (act_of self.old) (clock_of self.old + 1) events.Act
            (note_for self.old) self.new) }
        ensures err { OnErr result (Stays self.old self.new) }
        ensures connects { connect_count self.new ≡ connect_count self.old }
        ensures late { IfErr result is_late }
        ensures unfit { IsErrOf result Halt.Unfit → act_of self.old ≡ None }
    {
        let place = self.table.start(protocol);
        match self.request(place, to) {
            Ok(end) => {
                self.machine.opened(end);
                Ok(())
            }
            Err(halt) => Err(halt),
        }
    }

    // A step that accepts a session.
    pub(crate) fn step_accept(&mut self, protocol: u16, from: u16) -> Result<(), Halt>
        requires step { wants_of self.old ≡ wants.Accept protocol from }
        requires steps { steps_of self.old < limit_of_steps }
        requires clock { clock_of self.old < clock_end }
        ensures ok { OnOk result (Does self.old (act_of self.old) (clock_of self.old + 1) events.Act
            (note_for self.old) self.new) }
        ensures err { OnErr result (Stays self.old self.new) }
        ensures connects { connect_count self.new ≡ connect_count self.old }
        ensures late { IfErr result is_late }
        ensures unfit { IsErrOf result Halt.Unfit → act_of self.old ≡ None }
    {
        let place = self.table.start(protocol);
        match self.accept(place, from) {
            Ok(end) => {
                self.machine.opened(end);
                Ok(())
            }
            Err(halt) => Err(halt),
        }
    }
}
