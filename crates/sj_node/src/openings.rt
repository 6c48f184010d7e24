//! The rows that open a session or accept one, and the row of an Open.
ghost use Rattle.std.specs.Prelude.{◌≡◌, ◌+◌, ◌<◌, OnOk, OnErr, IfErr, IfOk, IsErrOf, None, Some, option_map};
ghost use Rattle.sj_end.specs.declared.note.Event.TheVariants as events;
ghost use Rattle.sj_node.specs.Calls.{call_of, place_here, program_of};
ghost use Rattle.sj_node.specs.Halts.{is_late};
ghost use Rattle.sj_node.specs.Node.{Does, Stays, clock_of, connect_count, requests_of};
ghost use Rattle.sj_node.specs.Opening.{Accepts, AcceptsFrom};
ghost use Rattle.sj_node.specs.Parking.{held_of};
ghost use Rattle.sj_node.specs.Requests.{accept_note, accepted_by, request_note, requested_by};
ghost use Rattle.sj_node.specs.Rows.{IsOpened, LacksOpen, Rests};
ghost use Rattle.sj_node.specs.Slots.{main_at, mains_in};
ghost use Rattle.sj_node.specs.declared.refusal.Halt.TheVariants as halts;
ghost use Rattle.sj_rules.specs.Limits.{clock_end, limit_of_requests};
ghost use Rattle.sj_rules.specs.Node as rules;

use crate::departures::make_main_slot;
use crate::handovers::{is_vacant, put_held};
use crate::numbers::is_opened_by;
use crate::outs::{make_room, put_frame};
use crate::slots::{Main, slot_of};
use crate::takes::is_free;
use crate::{DeliverRefusal, Halt, Node};
use sj_base::EndId;
use sj_end::{Body, Entry, Event, Frame, Held, Note};
use sj_machine::opened_number;
use sj_offers::{offer, offered_by, withdraw};
use sj_table::Spot;

impl Node {
    /// Requests a session at that party, and notes it; its own end, which gets that place. It is
    /// refused out of memory alone, and the node is then as it was.
    pub(crate) fn request(&mut self, place: Spot, to: u16) -> Result<EndId, Halt>
        requires clock { clock_of self.old < clock_end }
        requires requests { requests_of self.old < limit_of_requests }
        ensures ok { OnOk result (Does self.old
            (call_of self.old (rules.requests (place_here self.old place) to))
            (clock_of self.old + 1) events.Act (request_note self.old to) self.new) }
        ensures opened { IfOk result (λ e. e ≡ requested_by self.old) }
        ensures err { OnErr result (Stays self.old self.new) }
        ensures connects { connect_count self.new ≡ connect_count self.old }
        ensures program { program_of self.new ≡ program_of self.old }
        ensures memory { IfErr result (λ h. h ≡ halts.NoMemory) }
    {
        let sess = opened_number(self.party, self.requests);
        let end = EndId { sess, side: 0 };
        self.log.reserve(1)?;
        make_room(self.alloc, &mut self.outs, to, 1)?;
        if make_main_slot(&mut self.mains, end).is_err() {
            return Err(Halt::NoMemory);
        }
        put_held(
            &mut self.mains,
            end,
            Held::first(self.alloc, end, to, place),
        );
        self.requests += 1;
        self.clock += 1;
        put_frame(
            &mut self.outs,
            to,
            Frame {
                clock: self.clock,
                body: Body::Open { sess },
            },
        );
        self.log.push_reserved(Entry {
            clock: self.clock,
            event: Event::Act,
            note: Note::Request { sess, to },
        });
        Ok(end)
    }

    /// Accepts the next session that the party offers, and notes it; its own end, which gets that
    /// place. Whatever it refuses, the node is as it was.
    pub(crate) fn accept(&mut self, place: Spot, from: u16) -> Result<EndId, Halt>
        requires clock { clock_of self.old < clock_end }
        ensures ok { OnOk result (Does self.old
            (call_of self.old (rules.accepts (place_here self.old place) from))
            (clock_of self.old + 1) events.Act (accept_note self.old from) self.new) }
        ensures opened { IfOk result (λ e. Some e ≡ accepted_by self.old from) }
        ensures err { OnErr result (Stays self.old self.new) }
        ensures connects { connect_count self.new ≡ connect_count self.old }
        ensures program { program_of self.new ≡ program_of self.old }
        ensures late { IfErr result is_late }
        ensures unfit { IsErrOf result Halt.Unfit →
            call_of self.old (rules.accepts (place_here self.old place) from) ≡ None }
    {
        let Some(sess) = offered_by(&self.offers, from) else {
            return Err(Halt::Unfit);
        };
        let end = EndId { sess, side: 1 };
        self.log.reserve(1)?;
        if let Err(halt) = accept_on(&mut self.mains, end, place) {
            return Err(halt);
        }
        withdraw(&mut self.offers, from, sess);
        self.clock += 1;
        self.log.push_reserved(Entry {
            clock: self.clock,
            event: Event::Act,
            note: Note::Accept { sess, from },
        });
        Ok(end)
    }

    /// The row of an Open that comes from that party.
    pub(crate) fn open_row(&mut self, from: u16, sess: u32) -> Result<(), DeliverRefusal>
        ensures ok { OnOk result (IsOpened self.old from sess self.new) }
        ensures unfit { IsErrOf result DeliverRefusal.Unfit → LacksOpen self.old from sess }
        ensures err { OnErr result (Rests self.old self.new) }
        ensures connects { connect_count self.new ≡ connect_count self.old }
    {
        let end = EndId { sess, side: 1 };
        if !is_opened_by(from, sess) || !is_free(&self.mains, end) || !is_vacant(&self.olds, end) {
            return Err(DeliverRefusal::Unfit);
        }
        if make_main_slot(&mut self.mains, end).is_err() {
            return Err(DeliverRefusal::NoMemory);
        }
        if offer(self.alloc, &mut self.offers, from, sess).is_err() {
            return Err(DeliverRefusal::NoMemory);
        }
        let place = self.table.done();
        put_held(
            &mut self.mains,
            end,
            Held::first(self.alloc, end, from, place),
        );
        Ok(())
    }
}

/// Gives the end its place, where it is held. An offered end had none.
fn accept_on(mains: &mut Vec<Option<Main>>, end: EndId, place: Spot) -> Result<(), Halt>
    ensures ok { OnOk result (Accepts end place (mains_in mains.old.items) (mains_in mains.new.items)) }
    ensures err { OnErr result (mains_in mains.new.items ≡ mains_in mains.old.items) }
    ensures late { IfErr result is_late }
    ensures unfit { IsErrOf result Halt.Unfit → held_of (mains_in mains.old.items end) ≡ None }
{
    let Some(at) = slot_of(end, mains.len()) else {
        return Err(Halt::Unfit);
    };
    let slot = &mut mains[at];
    accept_in(slot, place)
}

fn accept_in(slot: &mut Option<Main>, place: Spot) -> Result<(), Halt>
    ensures ok { OnOk result (AcceptsFrom place (option_map main_at slot.old) (option_map main_at slot.new)) }
    ensures err { OnErr result (option_map main_at slot.new ≡ option_map main_at slot.old) }
    ensures late { IfErr result is_late }
    ensures unfit { IsErrOf result Halt.Unfit → held_of (option_map main_at slot.old) ≡ None }
{
    match slot {
        Some(Main::Held(held)) => {
            held.end.place = Spot { node: 0 };
            held.accept(place);
            Ok(())
        }
        _ => Err(Halt::Unfit),
    }
}
