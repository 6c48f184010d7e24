//! Steps that take from an end, and steps that delegate an end.
ghost use Rattle.std.specs.Prelude.{◌≡◌, ◌+◌, ◌<◌, OnOk, OnErr, IfErr, IsErrOf, Some, None, true, false};
ghost use Rattle.sj_end.specs.declared.note.Event.TheVariants as events;
ghost use Rattle.sj_node.specs.Node.{Does, Stays, act_of, clock_of, next_head, note_for, connect_count, steps_of, takes_in, wants_of};
ghost use Rattle.sj_base.specs.declared.Msg.TheVariants as msgs;
ghost use Rattle.sj_node.specs.Halts.{is_late};
ghost use Rattle.sj_rules.specs.Limits.{clock_end, limit_of_steps};
ghost use Rattle.sj_semantics.specs.Fitting.{is_session};
ghost use Rattle.sj_semantics.specs.declared.Want.TheVariants as wants;

use crate::takes::{awaited_spot, head_at, is_known};
use crate::{Halt, Node};
use sj_base::{EndId, Msg};
use sj_semantics::Awaits;

impl Node {
    // A step that takes.
    pub(crate) fn step_take(&mut self, end: EndId, awaits: Awaits) -> Result<(), Halt>
        requires step { wants_of self.old ≡ wants.Take end awaits }
        requires steps { steps_of self.old < limit_of_steps }
        requires clock { clock_of self.old < clock_end }
        ensures ok { OnOk result (Does self.old (act_of self.old) (clock_of self.old + 1) events.Act
            (note_for self.old) self.new) }
        ensures err { OnErr result (Stays self.old self.new) }
        ensures connects { connect_count self.new ≡ connect_count self.old }
        ensures late { IfErr result is_late }
        ensures unfit { IsErrOf result Halt.Unfit → act_of self.old ≡ None }
    {
        let Some(msg) = head_at(&self.mains, end) else {
            return Err(Halt::Unfit);
        };
        if !self.machine.fits(&msg) || !is_known(self.connects, self.parties, &msg) {
            return Err(Halt::Unfit);
        }
        match msg {
            Msg::Sess { sess, side, keeper } => {
                self.take_end(end, awaits, EndId { sess, side }, keeper)
            }
            _ => self.take_value(end, awaits, msg),
        }
    }

    // A step that takes a message which isn't a session message.
    fn take_value(&mut self, end: EndId, awaits: Awaits, msg: Msg) -> Result<(), Halt>
        requires step { wants_of self.old ≡ wants.Take end awaits }
        requires steps { steps_of self.old < limit_of_steps }
        requires clock { clock_of self.old < clock_end }
        requires head { next_head self.old end ≡ Some msg }
        requires fits { takes_in self.old msg ≡ true }
        requires value { is_session msg ≡ false }
        ensures ok { OnOk result (Does self.old (act_of self.old) (clock_of self.old + 1) events.Act
            (note_for self.old) self.new) }
        ensures err { OnErr result (Stays self.old self.new) }
        ensures connects { connect_count self.new ≡ connect_count self.old }
        ensures late { IfErr result is_late }
        ensures unfit { IsErrOf result Halt.Unfit → act_of self.old ≡ None }
    {
        if let Err(halt) = self.call_take_value(end, msg) {
            return Err(halt);
        }
        self.machine.took(msg);
        Ok(())
    }

    // A step that takes a session message, which names the end `of`.
    fn take_end(&mut self, end: EndId, awaits: Awaits, of: EndId, keeper: u16) -> Result<(), Halt>
        requires step { wants_of self.old ≡ wants.Take end awaits }
        requires steps { steps_of self.old < limit_of_steps }
        requires clock { clock_of self.old < clock_end }
        requires head { next_head self.old end ≡ Some (msgs.Sess of.sess of.side keeper) }
        requires fits { takes_in self.old (msgs.Sess of.sess of.side keeper) ≡ true }
        ensures ok { OnOk result (Does self.old (act_of self.old) (clock_of self.old + 1) events.Act
            (note_for self.old) self.new) }
        ensures err { OnErr result (Stays self.old self.new) }
        ensures connects { connect_count self.new ≡ connect_count self.old }
        ensures late { IfErr result is_late }
        ensures unfit { IsErrOf result Halt.Unfit → act_of self.old ≡ None }
    {
        let place = awaited_spot(&self.table, awaits);
        if let Err(halt) = self.call_take_end(end, place, of, keeper) {
            return Err(halt);
        }
        self.machine.took(Msg::Sess {
            sess: of.sess,
            side: of.side,
            keeper,
        });
        Ok(())
    }

    // A step that delegates an end.
    pub(crate) fn step_delegate(&mut self, end: EndId, sent: EndId) -> Result<(), Halt>
        requires step { wants_of self.old ≡ wants.Delegate end sent }
        requires steps { steps_of self.old < limit_of_steps }
        requires clock { clock_of self.old < clock_end }
        ensures ok { OnOk result (Does self.old (act_of self.old) (clock_of self.old + 1) events.Act
            (note_for self.old) self.new) }
        ensures err { OnErr result (Stays self.old self.new) }
        ensures connects { connect_count self.new ≡ connect_count self.old }
        ensures late { IfErr result is_late }
        ensures unfit { IsErrOf result Halt.Unfit → act_of self.old ≡ None }
    {
        if let Err(halt) = self.call_delegate(end, sent) {
            return Err(halt);
        }
        self.machine.sent();
        Ok(())
    }
}
