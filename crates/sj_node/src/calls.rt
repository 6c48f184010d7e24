//! Steps that come from outside: the rows of a party's acts, whatever its program is, which stays.
ghost use Rattle.std.specs.Prelude.{◌≡◌, ◌+◌, ◌<◌, OnOk, OnErr, IfErr, IsErrOf, Some, None, false};
ghost use Rattle.sj_base.specs.declared.Msg.TheVariants as msgs;
ghost use Rattle.sj_lang.specs.Place.{Place};
ghost use Rattle.sj_node.specs.Parking.{IsBelowHops, held_of};
ghost use Rattle.sj_rules.specs.Record as records;
ghost use Rattle.sj_semantics.specs.Fitting.{is_session};
ghost use Rattle.sj_end.specs.declared.note.Event.TheVariants as events;
ghost use Rattle.sj_end.specs.declared.note.Note.TheVariants as notes;
ghost use Rattle.sj_node.specs.Calls.{call_of, place_here, program_of};
ghost use Rattle.sj_node.specs.Reading.{party_of};
ghost use Rattle.sj_node.specs.Node.{Does, Stays, clock_of, connect_count, main_of, next_head};
ghost use Rattle.sj_node.specs.Halts.{is_late};
ghost use Rattle.sj_rules.specs.Limits.{clock_end};
ghost use Rattle.sj_rules.specs.Node as rules;

use crate::departures::{
    hops_at, is_same_end, make_main_slot, make_slot, parked, put_old, take_out,
};
use crate::outs::{make_room, put_frame};
use crate::sends::{close_on, peer_at, send_on};
use crate::slots::Old;
use crate::takes::{expect, is_free, take_on};
use crate::{Halt, Node};
use sj_base::{EndId, Msg};
use sj_end::{Entry, Event, Frame, Note};
use sj_handover::claim;
use sj_machine::MAX_HOPS;
use sj_table::Spot;

impl Node {
    /// Sends the message on the end, and notes it. Whatever it refuses, the node is as it was.
    pub fn call_send(&mut self, end: EndId, msg: Msg) -> Result<(), Halt>
        requires clock { clock_of self.old < clock_end }
        ensures ok { OnOk result (Does self.old (call_of self.old (rules.sends end msg))
            (clock_of self.old + 1) events.Act (notes.Sent end msg) self.new) }
        ensures err { OnErr result (Stays self.old self.new) }
        ensures connects { connect_count self.new ≡ connect_count self.old }
        ensures late { IfErr result is_late }
        ensures unfit { IsErrOf result Halt.Unfit → call_of self.old (rules.sends end msg) ≡ None }
        ensures program { program_of self.new ≡ program_of self.old }
    {
        let Some(to) = peer_at(&self.mains, end) else {
            return Err(Halt::Unfit);
        };
        self.log.reserve(1)?;
        make_room(self.alloc, &mut self.outs, to, 1)?;
        let post = match send_on(&mut self.mains, &self.table, end, msg) {
            Ok(post) => post,
            Err(halt) => return Err(halt),
        };
        self.clock += 1;
        put_frame(
            &mut self.outs,
            post.to,
            Frame {
                clock: self.clock,
                body: post.body,
            },
        );
        self.log.push_reserved(Entry {
            clock: self.clock,
            event: Event::Act,
            note: Note::Sent { end, msg },
        });
        Ok(())
    }

    /// Closes the end, and notes it. Whatever it refuses, the node is as it was.
    pub fn call_close(&mut self, end: EndId) -> Result<(), Halt>
        requires clock { clock_of self.old < clock_end }
        ensures ok { OnOk result (Does self.old (call_of self.old (rules.closes end))
            (clock_of self.old + 1) events.Act (notes.Shut end) self.new) }
        ensures err { OnErr result (Stays self.old self.new) }
        ensures connects { connect_count self.new ≡ connect_count self.old }
        ensures late { IfErr result is_late }
        ensures unfit { IsErrOf result Halt.Unfit → call_of self.old (rules.closes end) ≡ None }
        ensures program { program_of self.new ≡ program_of self.old }
    {
        let Some(to) = peer_at(&self.mains, end) else {
            return Err(Halt::Unfit);
        };
        self.log.reserve(1)?;
        make_room(self.alloc, &mut self.outs, to, 1)?;
        let post = match close_on(&mut self.mains, &self.table, end) {
            Ok(post) => post,
            Err(halt) => return Err(halt),
        };
        self.clock += 1;
        put_frame(
            &mut self.outs,
            post.to,
            Frame {
                clock: self.clock,
                body: post.body,
            },
        );
        self.log.push_reserved(Entry {
            clock: self.clock,
            event: Event::Act,
            note: Note::Shut { end },
        });
        Ok(())
    }

    /// Takes the next message of the end, one that is no session message, and notes it. Whatever it
    /// refuses, the node is as it was.
    pub fn call_take_value(&mut self, end: EndId, msg: Msg) -> Result<(), Halt>
        requires clock { clock_of self.old < clock_end }
        requires head { next_head self.old end ≡ Some msg }
        requires value { is_session msg ≡ false }
        ensures ok { OnOk result ((place : Place) →
            Does self.old (call_of self.old (rules.takes end place))
            (clock_of self.old + 1) events.Act (notes.Took end msg) self.new) }
        ensures err { OnErr result (Stays self.old self.new) }
        ensures connects { connect_count self.new ≡ connect_count self.old }
        ensures late { IfErr result is_late }
        ensures unfit { IsErrOf result Halt.Unfit → (place : Place) →
            call_of self.old (rules.takes end place) ≡ None }
        ensures program { program_of self.new ≡ program_of self.old }
    {
        self.log.reserve(1)?;
        if let Err(halt) = take_on(&mut self.mains, &self.table, end, msg) {
            return Err(halt);
        }
        self.clock += 1;
        self.log.push_reserved(Entry {
            clock: self.clock,
            event: Event::Act,
            note: Note::Took { end, msg },
        });
        Ok(())
    }

    /// Takes the next message of the end, which names the end `of`; that one gets this place.
    /// Whatever it refuses, the node is as it was.
    pub fn call_take_end(
        &mut self,
        end: EndId,
        place: Spot,
        of: EndId,
        keeper: u16,
    ) -> Result<(), Halt>
        requires clock { clock_of self.old < clock_end }
        requires head { next_head self.old end ≡ Some (msgs.Sess of.sess of.side keeper) }
        requires side { of.side < 2 }
        ensures ok { OnOk result (Does self.old
            (call_of self.old (rules.takes end (place_here self.old place)))
            (clock_of self.old + 1) events.Act
            (notes.Took end (msgs.Sess of.sess of.side keeper)) self.new) }
        ensures err { OnErr result (Stays self.old self.new) }
        ensures connects { connect_count self.new ≡ connect_count self.old }
        ensures late { IfErr result is_late }
        ensures unfit { IsErrOf result Halt.Unfit →
            call_of self.old (rules.takes end (place_here self.old place)) ≡ None }
        ensures program { program_of self.new ≡ program_of self.old }
    {
        if !is_free(&self.mains, of) {
            return Err(Halt::Unfit);
        }
        let msg = Msg::Sess {
            sess: of.sess,
            side: of.side,
            keeper,
        };
        self.log.reserve(1)?;
        make_room(self.alloc, &mut self.outs, keeper, 1)?;
        if make_main_slot(&mut self.mains, of).is_err() {
            return Err(Halt::NoMemory);
        }
        if let Err(halt) = take_on(&mut self.mains, &self.table, end, msg) {
            return Err(halt);
        }
        let (expected, body) = claim(self.alloc, of, keeper, place);
        expect(&mut self.mains, expected);
        self.clock += 1;
        put_frame(
            &mut self.outs,
            keeper,
            Frame {
                clock: self.clock,
                body,
            },
        );
        self.log.push_reserved(Entry {
            clock: self.clock,
            event: Event::Act,
            note: Note::Took { end, msg },
        });
        Ok(())
    }

    /// Delegates the end `sent` on the end, and notes it. Whatever it refuses, the node is as it
    /// was.
    pub fn call_delegate(&mut self, end: EndId, sent: EndId) -> Result<(), Halt>
        requires clock { clock_of self.old < clock_end }
        ensures ok { OnOk result (Does self.old (call_of self.old (rules.delegates end sent))
            (clock_of self.old + 1) events.Act
            (notes.Sent end (msgs.Sess sent.sess sent.side (party_of self.old))) self.new) }
        ensures err { OnErr result (Stays self.old self.new) }
        ensures connects { connect_count self.new ≡ connect_count self.old }
        ensures late { IfErr result is_late }
        ensures unfit { IsErrOf result Halt.Unfit →
            call_of self.old (rules.delegates end sent) ≡ None }
        ensures program { program_of self.new ≡ program_of self.old }
    {
        if is_same_end(end, sent) {
            return Err(Halt::Unfit);
        }
        match hops_at(&self.mains, sent) {
            Some(hops) => {
                if hops >= MAX_HOPS {
                    return Err(Halt::Unfit);
                }
            }
            None => return Err(Halt::Unfit),
        }
        self.hand_on(end, sent)
    }

    // The end that is sent is held, is another one, and may be delegated once more.
    fn hand_on(&mut self, end: EndId, sent: EndId) -> Result<(), Halt>
        requires clock { clock_of self.old < clock_end }
        requires other { records.is_same_end end sent ≡ false }
        requires hops { IsBelowHops (held_of (main_of self.old sent)) }
        requires side { sent.side < 2 }
        ensures ok { OnOk result (Does self.old (call_of self.old (rules.delegates end sent))
            (clock_of self.old + 1) events.Act
            (notes.Sent end (msgs.Sess sent.sess sent.side (party_of self.old))) self.new) }
        ensures err { OnErr result (Stays self.old self.new) }
        ensures connects { connect_count self.new ≡ connect_count self.old }
        ensures late { IfErr result is_late }
        ensures unfit { IsErrOf result Halt.Unfit →
            call_of self.old (rules.delegates end sent) ≡ None }
        ensures program { program_of self.new ≡ program_of self.old }
    {
        let Some(to) = peer_at(&self.mains, end) else {
            return Err(Halt::Unfit);
        };
        let msg = Msg::Sess {
            sess: sent.sess,
            side: sent.side,
            keeper: self.party,
        };
        self.log.reserve(1)?;
        make_room(self.alloc, &mut self.outs, to, 1)?;
        let Ok(room) = make_slot(self.alloc, &mut self.olds, sent) else {
            return Err(Halt::NoMemory);
        };
        let post = match send_on(&mut self.mains, &self.table, end, msg) {
            Ok(post) => post,
            Err(halt) => return Err(halt),
        };
        let held = take_out(&mut self.mains, sent);
        put_old(&mut self.olds, sent, Old::Parked(parked(held, room)));
        self.clock += 1;
        put_frame(
            &mut self.outs,
            post.to,
            Frame {
                clock: self.clock,
                body: post.body,
            },
        );
        self.log.push_reserved(Entry {
            clock: self.clock,
            event: Event::Act,
            note: Note::Sent { end, msg },
        });
        Ok(())
    }
}
