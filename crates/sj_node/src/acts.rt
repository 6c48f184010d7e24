//! Acts of a party.
ghost use Rattle.std.specs.Prelude.{◌≡◌, ◌+◌, ◌<◌, ◌↔◌, OnOk, OnErr, IfErr, IsErrOf, IsSome, Some, None};
ghost use Rattle.sj_end.specs.declared.note.Event.TheVariants as events;
ghost use Rattle.sj_node.specs.Node.{Does, Stays, act_of, clock_of, note_for, connect_count, steps_of, node_halt, wants_of};
ghost use Rattle.sj_node.specs.Halts.{is_late};
ghost use Rattle.sj_node.specs.Unfit.{Agrees, misfit_of};
ghost use Rattle.sj_node.specs.declared.refusal.Halt.TheVariants as halts;
ghost use Rattle.sj_semantics.specs.declared.Want.TheVariants as wants;
ghost use Rattle.sj_rules.specs.Limits.{clock_end, limit_of_steps};

use crate::{Halt, Node};
use sj_base::{EndId, Msg};
use sj_end::{Entry, Event, Note};
use sj_semantics::Want;

impl Node {
    /// Does the next step of the program. Whatever it refuses, the node is as it was.
    pub fn act(&mut self) -> Result<(), Halt>
        requires clock { clock_of self.old < clock_end }

        // The act of the rules, with the clock raised by one, and noted.
        ensures ok { OnOk result (Does self.old (act_of self.old) (clock_of self.old + 1) events.Act
            (note_for self.old) self.new) }

        // A refusal changes nothing.
        ensures err { OnErr result (Stays self.old self.new) }

        // As many connections' slots stand as before.
        ensures connects { connect_count self.new ≡ connect_count self.old }

        // It refuses a step so only where the rules have no act: where the places of its ends let
        // the step, for one of four causes.
        ensures unfit { IsErrOf result Halt.Unfit → act_of self.old ≡ None }
        ensures cause { IsErrOf result Halt.Unfit → Agrees self.old (wants_of self.old) →
            IsSome (misfit_of self.old) }

        // Each of these comes just where it is the first cause that applies.
        ensures ended { IsErrOf result Halt.Ended ↔ (node_halt self.old ≡ Some halts.Ended) }
        ensures at_limit { IsErrOf result Halt.AtLimit ↔ (node_halt self.old ≡ Some halts.AtLimit) }
        ensures waits { IsErrOf result Halt.Waits ↔ (node_halt self.old ≡ Some halts.Waits) }
    {
        let want = self.machine.wants();
        match self.stop_at(want) {
            Some(halt) => Err(halt),
            None => self.step(want),
        }
    }

    fn step(&mut self, want: Want) -> Result<(), Halt>
        requires step { wants_of self.old ≡ want }
        requires clock { clock_of self.old < clock_end }
        requires goes { node_halt self.old ≡ None }
        ensures ok { OnOk result (Does self.old (act_of self.old) (clock_of self.old + 1) events.Act
            (note_for self.old) self.new) }
        ensures err { OnErr result (Stays self.old self.new) }
        ensures connects { connect_count self.new ≡ connect_count self.old }
        ensures late { IfErr result is_late }
        ensures unfit { IsErrOf result Halt.Unfit → act_of self.old ≡ None }
    {
        match want {
            Want::Local => self.step_local(),
            Want::Send { end, msg } => self.step_send(end, msg),
            Want::Delegate { end, sent } => self.step_delegate(end, sent),
            Want::Take { end, awaits } => self.step_take(end, awaits),
            Want::Close { end } => self.step_close(end),
            Want::Request { protocol, to } => self.step_request(protocol, to),
            Want::Accept { protocol, from } => self.step_accept(protocol, from),
            Want::Ended => unreachable!(),
        }
    }

    // A step without a message.
    fn step_local(&mut self) -> Result<(), Halt>
        requires step { wants_of self.old ≡ wants.Local }
        requires steps { steps_of self.old < limit_of_steps }
        requires clock { clock_of self.old < clock_end }
        ensures ok { OnOk result (Does self.old (act_of self.old) (clock_of self.old + 1) events.Act
            (note_for self.old) self.new) }
        ensures err { OnErr result (Stays self.old self.new) }
        ensures connects { connect_count self.new ≡ connect_count self.old }
        ensures late { IfErr result is_late }
        ensures unfit { IsErrOf result Halt.Unfit → act_of self.old ≡ None }
    {
        self.log.reserve(1)?;
        self.machine.local();
        self.clock += 1;
        self.log.push_reserved(Entry {
            clock: self.clock,
            event: Event::Act,
            note: Note::Local,
        });
        Ok(())
    }

    // A step that sends.
    fn step_send(&mut self, end: EndId, msg: Msg) -> Result<(), Halt>
        requires step { wants_of self.old ≡ wants.Send end msg }
        requires steps { steps_of self.old < limit_of_steps }
        requires clock { clock_of self.old < clock_end }
        ensures ok { OnOk result (Does self.old (act_of self.old) (clock_of self.old + 1) events.Act
            (note_for self.old) self.new) }
        ensures err { OnErr result (Stays self.old self.new) }
        ensures connects { connect_count self.new ≡ connect_count self.old }
        ensures late { IfErr result is_late }
        ensures unfit { IsErrOf result Halt.Unfit → act_of self.old ≡ None }
    {
        if let Err(halt) = self.call_send(end, msg) {
            return Err(halt);
        }
        self.machine.sent();
        Ok(())
    }

    // A step that closes an end.
    fn step_close(&mut self, end: EndId) -> Result<(), Halt>
        requires step { wants_of self.old ≡ wants.Close end }
        requires steps { steps_of self.old < limit_of_steps }
        requires clock { clock_of self.old < clock_end }
        ensures ok { OnOk result (Does self.old (act_of self.old) (clock_of self.old + 1) events.Act
            (note_for self.old) self.new) }
        ensures err { OnErr result (Stays self.old self.new) }
        ensures connects { connect_count self.new ≡ connect_count self.old }
        ensures late { IfErr result is_late }
        ensures unfit { IsErrOf result Halt.Unfit → act_of self.old ≡ None }
    {
        if let Err(halt) = self.call_close(end) {
            return Err(halt);
        }
        self.machine.closed();
        Ok(())
    }
}
