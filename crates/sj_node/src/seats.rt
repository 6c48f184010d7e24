//! A party whose steps come from outside.
ghost use Rattle.std.specs.Prelude.{◌≡◌, ◌+◌, ◌<◌, ◌↔◌, OnOk, OnErr, IfErr, IfOk, IsErrOf, Some, None, is_some, true};
ghost use Rattle.sj_end.specs.declared.note.Event.TheVariants as events;
ghost use Rattle.sj_node.specs.Calls.{call_of, place_here, program_of};
ghost use Rattle.sj_node.specs.Halts.{is_late};
ghost use Rattle.sj_end.specs.declared.note.Note.TheVariants as notes;
ghost use Rattle.sj_node.specs.Node.{Does, Stays, clock_of, connect_count, next_head, took_if};
ghost use Rattle.sj_node.specs.Play.{names_known};
ghost use Rattle.sj_node.specs.Reading.{parties_of};
ghost use Rattle.sj_node.specs.Seats.{call_note, call_stop, head_taken, is_known_head, is_take, takes_known, want_at, want_shown};
ghost use Rattle.sj_node.specs.declared.refusal.Halt.TheVariants as halts;
ghost use Rattle.sj_rules.specs.Limits.{clock_end};
ghost use Rattle.sj_rules.specs.Node as rules;

use crate::halts::node_halt;
use crate::takes::{head_at, is_known};
use crate::{Halt, Node};
use sj_base::{EndId, Msg};
use sj_semantics::{Awaits, Want};
use sj_table::Spot;

/// What a party does whose steps come from outside.
#[derive(Clone, Copy, Debug, PartialEq, Eq)]
pub enum Call {
    /// Sends a message on the end.
    Send { end: EndId, msg: Msg },
    /// Delegates the end on the carrier.
    Delegate { carrier: EndId, end: EndId },
    /// Takes the next message of the end. Where it names an end, that one gets the place.
    Take { end: EndId, place: Spot },
    /// Closes the end.
    Close { end: EndId },
}

impl Node {
    /// The message that is next on the end: the first that has come there and isn't taken. None
    /// where the party doesn't hold the end.
    pub fn head(&self, end: EndId) -> Option<Msg>
        ensures { result ≡ next_head self.now end }
    {
        head_at(&self.mains, end)
    }

    /// Does the call, whatever the program is, which stays; the message that it takes, if any.
    /// Whatever it refuses, the node is as it was.
    pub fn call(&mut self, call: Call) -> Result<Option<Msg>, Halt>
        requires clock { clock_of self.old < clock_end }

        // The row of the rules, with the clock raised by one, and noted.
        ensures ok { OnOk result (Does self.old (call_of self.old (want_at self.old call))
            (clock_of self.old + 1) events.Act (call_note self.old call) self.new) }
        ensures taken { IfOk result (λ m. m ≡ head_taken self.old call) }
        ensures takes { IfOk result (λ m. is_some m ≡ is_take call) }
        ensures known { IfOk result (λ m. takes_known self.old call ≡ true) }

        // A refusal changes nothing.
        ensures err { OnErr result (Stays self.old self.new) }

        // What stays in any case.
        ensures connects { connect_count self.new ≡ connect_count self.old }
        ensures program { program_of self.new ≡ program_of self.old }

        // Where a message that it takes names what is there, it is unfit only where no row fits.
        ensures unfit { IsErrOf result Halt.Unfit → takes_known self.old call ≡ true →
            call_of self.old (want_at self.old call) ≡ None }

        // Each of these two comes just where it is the first cause that applies. Ended never comes.
        ensures at_limit { IsErrOf result Halt.AtLimit ↔ (call_stop self.old call ≡ Some halts.AtLimit) }
        ensures waits { IsErrOf result Halt.Waits ↔ (call_stop self.old call ≡ Some halts.Waits) }
        ensures ended { IsErrOf result Halt.Ended → ⊥ }
    {
        match self.stop_called(call) {
            Some(halt) => Err(halt),
            None => self.do_call(call),
        }
    }

    // Why the call can't be done yet.
    fn stop_called(&self, call: Call) -> Option<Halt>
        ensures cause { result ≡ call_stop self.now call }
        ensures ended { result ≡ Some halts.Ended → ⊥ }
    {
        let want = want_of(call);
        node_halt(&self.mains, self.requests, &self.offers, 0, want)
    }

    // A call that nothing holds up.
    fn do_call(&mut self, call: Call) -> Result<Option<Msg>, Halt>
        requires clock { clock_of self.old < clock_end }
        ensures ok { OnOk result (Does self.old (call_of self.old (want_at self.old call))
            (clock_of self.old + 1) events.Act (call_note self.old call) self.new) }
        ensures taken { IfOk result (λ m. m ≡ head_taken self.old call) }
        ensures takes { IfOk result (λ m. is_some m ≡ is_take call) }
        ensures known { IfOk result (λ m. takes_known self.old call ≡ true) }
        ensures err { OnErr result (Stays self.old self.new) }
        ensures connects { connect_count self.new ≡ connect_count self.old }
        ensures program { program_of self.new ≡ program_of self.old }
        ensures late { IfErr result is_late }
        ensures unfit { IsErrOf result Halt.Unfit → takes_known self.old call ≡ true →
            call_of self.old (want_at self.old call) ≡ None }
    {
        match call {
            Call::Send { end, msg } => match self.call_send(end, msg) {
                Ok(()) => Ok(None),
                Err(halt) => Err(halt),
            },
            Call::Delegate { carrier, end } => match self.call_delegate(carrier, end) {
                Ok(()) => Ok(None),
                Err(halt) => Err(halt),
            },
            Call::Take { end, place } => match self.call_take(end, place) {
                Ok(msg) => Ok(Some(msg)),
                Err(halt) => Err(halt),
            },
            Call::Close { end } => match self.call_close(end) {
                Ok(()) => Ok(None),
                Err(halt) => Err(halt),
            },
        }
    }

    // Takes the next message of the end, whatever it is.
    fn call_take(&mut self, end: EndId, place: Spot) -> Result<Msg, Halt>
        requires clock { clock_of self.old < clock_end }
        ensures ok { OnOk result (Does self.old
            (call_of self.old (rules.takes end (place_here self.old place)))
            (clock_of self.old + 1) events.Act (took_if end (next_head self.old end)) self.new) }
        ensures taken { IfOk result (λ m. Some m ≡ next_head self.old end) }
        ensures known { IfOk result (λ m. is_known_head self.old (next_head self.old end) ≡ true) }
        ensures err { OnErr result (Stays self.old self.new) }
        ensures connects { connect_count self.new ≡ connect_count self.old }
        ensures program { program_of self.new ≡ program_of self.old }
        ensures late { IfErr result is_late }
        ensures unfit { IsErrOf result Halt.Unfit →
            is_known_head self.old (next_head self.old end) ≡ true →
            call_of self.old (rules.takes end (place_here self.old place)) ≡ None }
    {
        let Some(msg) = self.head(end) else {
            return Err(Halt::Unfit);
        };
        if !is_known(self.connects, self.parties, &msg) {
            return Err(Halt::Unfit);
        }
        match self.take_next(end, place, msg) {
            Ok(()) => Ok(msg),
            Err(halt) => Err(halt),
        }
    }

    // Takes that message, which is the next one of the end.
    fn take_next(&mut self, end: EndId, place: Spot, msg: Msg) -> Result<(), Halt>
        requires clock { clock_of self.old < clock_end }
        requires head { next_head self.old end ≡ Some msg }
        requires known { names_known (connect_count self.old) (parties_of self.old) msg ≡ true }
        ensures ok { OnOk result (Does self.old
            (call_of self.old (rules.takes end (place_here self.old place)))
            (clock_of self.old + 1) events.Act (notes.Took end msg) self.new) }
        ensures err { OnErr result (Stays self.old self.new) }
        ensures connects { connect_count self.new ≡ connect_count self.old }
        ensures program { program_of self.new ≡ program_of self.old }
        ensures late { IfErr result is_late }
        ensures unfit { IsErrOf result Halt.Unfit →
            call_of self.old (rules.takes end (place_here self.old place)) ≡ None }
    {
        match msg {
            Msg::Sess { sess, side, keeper } => {
                self.call_take_end(end, place, EndId { sess, side }, keeper)
            }
            _ => self.call_take_value(end, msg),
        }
    }
}

// The same step, as a program would want it. What it awaits isn't asked.
fn want_of(call: Call) -> Want
    ensures { result ≡ want_shown call }
{
    match call {
        Call::Send { end, msg } => Want::Send { end, msg },
        Call::Delegate { carrier, end } => Want::Delegate {
            end: carrier,
            sent: end,
        },
        Call::Take { end, .. } => Want::Take {
            end,
            awaits: Awaits::OneOf,
        },
        Call::Close { end } => Want::Close { end },
    }
}
