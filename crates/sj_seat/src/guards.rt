//! The rules by which a call is refused, in their order.
ghost use Rattle.std.specs.Prelude.{◌≡◌, ◌<◌, false, true, IfOk, IfErr, IfSome, None, OnOk, Some, is_none, option_map, unwrap_or};
ghost use Rattle.sj_lang.specs.Place.{done};
ghost use Rattle.sj_seat.specs.Asked.{IsGuarded, IsOpenable, asked, want_opening};
ghost use Rattle.sj_node.specs.Seats.{is_take};
ghost use Rattle.sj_seat.specs.Holding.{ends_of};
ghost use Rattle.sj_seat.specs.Opened.{may_of};
ghost use Rattle.sj_seat.specs.Rules as rules;
ghost use Rattle.sj_seat.specs.Rules.{is_full, is_missing, names_text, place_at};
ghost use Rattle.sj_seat.specs.Wishes.{is_taking, open_tests_of, open_wished, tests_of, wished};
ghost use Rattle.sj_seat_laws.specs.Calls as calls;
ghost use Rattle.sj_seat_laws.specs.Calls.{place_held};
ghost use Rattle.sj_seat_laws.specs.Guards.{opened_place, want_of_call};
ghost use Rattle.sj_table.specs.Spots.{place_in};

use crate::ends::spot_held;
use crate::fronts::{begins_with, may_carry, may_send, sends_end, takes_no_end};
use crate::openings::spot_opened;
use crate::places::carried_spot;
use crate::{Guard, OpenWish, SeatRefusal, Wish};
use sj_base::{EndId, Msg};
use sj_machine::MAX_STEPS;
use sj_node::Call;
use sj_table::{Spot, Table};

impl Guard<'_> {
    /// The node's call that the code asks for, or the first rule that refuses it.
    pub fn check(&self, wish: Wish) -> Result<Call, SeatRefusal>
        ensures call { IfOk result (λ c. asked c ≡ wished wish) }
        ensures takes { IfOk result (λ c. is_take c ≡ is_taking wish) }
        ensures guarded { IfOk result
            (IsGuarded self.now.table.now (may_of self.now) (ends_of self.now) self.now.calls) }
        ensures allowed { IfOk result (λ c. rules.first_refusal
            (tests_of self.now.texts self.now.calls (ends_of self.now) wish) ≡ None) }
        ensures refused { IfErr result (λ r. rules.first_refusal
            (tests_of self.now.texts self.now.calls (ends_of self.now) wish) ≡ Some r) }
    {
        match wish {
            Wish::Send { end, msg } => self.send(end, msg),
            Wish::Delegate { carrier, end } => self.delegate(carrier, end),
            Wish::Take { end } => self.take(end),
            Wish::TakeEnd { end } => self.take_end(end),
            Wish::Close { end } => self.close(end),
        }
    }

    /// The sending of a value or a label, or of whether a loop turns.
    pub fn send(&self, end: EndId, msg: Msg) -> Result<Call, SeatRefusal>
        ensures call { IfOk result (λ c. asked c ≡ calls.sends end msg) }
        ensures takes { IfOk result (λ c. is_take c ≡ false) }
        ensures guarded { IfOk result
            (IsGuarded self.now.table.now (may_of self.now) (ends_of self.now) self.now.calls) }
        ensures allowed { IfOk result (λ c. rules.first_refusal
            (rules.send_tests self.now.texts self.now.calls (ends_of self.now) end msg) ≡ None) }
        ensures refused { IfErr result (λ r. rules.first_refusal
            (rules.send_tests self.now.texts self.now.calls (ends_of self.now) end msg) ≡ Some r) }
    {
        let place = self.place(end);
        let refusal = first_refusal(&[
            (SeatRefusal::NotHeld, self.is_missing(end)),
            (
                SeatRefusal::BeginsOtherwise,
                !begins_with(self.table, place, msg),
            ),
            (
                SeatRefusal::WrongKind,
                !(may_send(self.table, place, msg) && names_text(self.texts, msg)),
            ),
            (SeatRefusal::AtLimit, self.is_full()),
        ]);
        match refusal {
            Some(refusal) => Err(refusal),
            None => Ok(Call::Send { end, msg }),
        }
    }

    /// The delegation of an end on the other.
    pub fn delegate(&self, carrier: EndId, end: EndId) -> Result<Call, SeatRefusal>
        ensures call { IfOk result (λ c. asked c ≡ calls.delegates carrier end) }
        ensures takes { IfOk result (λ c. is_take c ≡ false) }
        ensures guarded { IfOk result
            (IsGuarded self.now.table.now (may_of self.now) (ends_of self.now) self.now.calls) }
        ensures allowed { IfOk result (λ c. rules.first_refusal
            (rules.delegate_tests self.now.calls (ends_of self.now) carrier end) ≡ None) }
        ensures refused { IfErr result (λ r. rules.first_refusal
            (rules.delegate_tests self.now.calls (ends_of self.now) carrier end) ≡ Some r) }
    {
        let place = self.place(carrier);
        let own = self.place(end);
        let refusal = first_refusal(&[
            (
                SeatRefusal::NotHeld,
                self.is_missing(carrier) || self.is_missing(end),
            ),
            (SeatRefusal::BeginsOtherwise, !sends_end(self.table, place)),
            (
                SeatRefusal::WrongEnd,
                carrier == end || self.table.is_done(own),
            ),
            (SeatRefusal::WrongKind, !may_carry(self.table, place, own)),
            (SeatRefusal::AtLimit, self.is_full()),
        ]);
        match refusal {
            Some(refusal) => Err(refusal),
            None => Ok(Call::Delegate { carrier, end }),
        }
    }

    /// The close of an end.
    pub fn close(&self, end: EndId) -> Result<Call, SeatRefusal>
        ensures call { IfOk result (λ c. asked c ≡ calls.closes end) }
        ensures takes { IfOk result (λ c. is_take c ≡ false) }
        ensures guarded { IfOk result
            (IsGuarded self.now.table.now (may_of self.now) (ends_of self.now) self.now.calls) }
        ensures allowed { IfOk result (λ c. rules.first_refusal
            (rules.close_tests self.now.calls (ends_of self.now) end) ≡ None) }
        ensures refused { IfErr result (λ r. rules.first_refusal
            (rules.close_tests self.now.calls (ends_of self.now) end) ≡ Some r) }
    {
        let place = self.place(end);
        let refusal = first_refusal(&[
            (SeatRefusal::NotHeld, self.is_missing(end)),
            (SeatRefusal::BeginsOtherwise, !self.table.is_done(place)),
            (SeatRefusal::AtLimit, self.is_full()),
        ]);
        match refusal {
            Some(refusal) => Err(refusal),
            None => Ok(Call::Close { end }),
        }
    }

    /// The take of a value, of a label, or of whether a loop turns.
    pub fn take(&self, end: EndId) -> Result<Call, SeatRefusal>
        ensures call { IfOk result (λ c. asked c ≡ calls.takes end) }
        ensures takes { IfOk result (λ c. is_take c ≡ true) }
        ensures guarded { IfOk result
            (IsGuarded self.now.table.now (may_of self.now) (ends_of self.now) self.now.calls) }
        ensures allowed { IfOk result (λ c. rules.first_refusal
            (rules.take_tests self.now.calls (ends_of self.now) end) ≡ None) }
        ensures refused { IfErr result (λ r. rules.first_refusal
            (rules.take_tests self.now.calls (ends_of self.now) end) ≡ Some r) }
    {
        let place = self.place(end);
        let refusal = first_refusal(&[
            (SeatRefusal::NotHeld, self.is_missing(end)),
            (
                SeatRefusal::BeginsOtherwise,
                !takes_no_end(self.table, place),
            ),
            (SeatRefusal::AtLimit, self.is_full()),
        ]);
        match refusal {
            Some(refusal) => Err(refusal),
            None => {
                let place = self.table.done();
                Ok(Call::Take { end, place })
            }
        }
    }

    /// The take of an end, which is held from then on.
    pub fn take_end(&self, end: EndId) -> Result<Call, SeatRefusal>
        ensures call { IfOk result (λ c. asked c ≡ calls.takes end) }
        ensures takes { IfOk result (λ c. is_take c ≡ true) }
        ensures guarded { IfOk result
            (IsGuarded self.now.table.now (may_of self.now) (ends_of self.now) self.now.calls) }
        ensures allowed { IfOk result (λ c. rules.first_refusal
            (rules.take_end_tests self.now.calls (ends_of self.now) end) ≡ None) }
        ensures refused { IfErr result (λ r. rules.first_refusal
            (rules.take_end_tests self.now.calls (ends_of self.now) end) ≡ Some r) }
    {
        let place = self.place(end);
        let carried = carried_spot(self.table, place);
        let refusal = first_refusal(&[
            (SeatRefusal::NotHeld, self.is_missing(end)),
            (SeatRefusal::BeginsOtherwise, carried.is_none()),
            (SeatRefusal::AtLimit, self.is_full()),
        ]);
        match (refusal, carried) {
            (Some(refusal), _) => Err(refusal),
            (None, Some(place)) => Ok(Call::Take { end, place }),
            (None, None) => unreachable!(),
        }
    }

    /// Whether the code may ask if a message is there for the end, or the rule that refuses it.
    pub fn ready(&self, end: EndId) -> Result<(), SeatRefusal>
        ensures allowed { OnOk result (rules.first_refusal (rules.ready_tests (ends_of self.now) end) ≡ None) }
        ensures refused { IfErr result (λ r. rules.first_refusal (rules.ready_tests (ends_of self.now) end) ≡ Some r) }
    {
        match first_refusal(&[(SeatRefusal::NotHeld, self.is_missing(end))]) {
            Some(refusal) => Err(refusal),
            None => Ok(()),
        }
    }

    /// The spot at which the party's own end begins of the session that the code asks to open, or the
    /// first rule that refuses it.
    pub fn open(&self, wish: OpenWish) -> Result<Spot, SeatRefusal>
        ensures guarded { IfOk result (IsOpenable self.now.table.now (may_of self.now)
            (ends_of self.now) self.now.calls wish) }
        ensures allowed { IfOk result (λ s. rules.first_refusal
            (open_tests_of self.now.calls (may_of self.now) wish) ≡ None) }
        ensures refused { IfErr result (λ r. rules.first_refusal
            (open_tests_of self.now.calls (may_of self.now) wish) ≡ Some r) }
    {
        let place = self.place_to_open(wish);
        let refusal = first_refusal(&[
            (SeatRefusal::NotOpened, place.is_none()),
            (SeatRefusal::AtLimit, self.is_full()),
        ]);
        match (refusal, place) {
            (Some(refusal), _) => Err(refusal),
            (None, Some(place)) => Ok(place),
            (None, None) => unreachable!(),
        }
    }

    // Where the party's own end begins of such a session, if the party may open one.
    fn place_to_open(&self, wish: OpenWish) -> Option<Spot>
        ensures there { is_none result ≡ is_none (opened_place (may_of self.now) (open_wished wish)) }
        ensures begins { IfSome result (λ s. opened_place (may_of self.now) (open_wished wish)
            ≡ Some (place_in self.now.table.now s)) }
        ensures want { IfSome result (λ s. want_opening (place_in self.now.table.now s) wish
            ≡ want_of_call (may_of self.now) (ends_of self.now) (open_wished wish)) }
    {
        match wish {
            OpenWish::Request { party, protocol } => {
                spot_opened(&self.may.requests, party, protocol)
            }
            OpenWish::Accept { party, protocol } => {
                spot_opened(&self.may.accepts, party, protocol)
            }
        }
    }

    fn is_missing(&self, end: EndId) -> bool
        ensures { result ≡ is_missing (ends_of self.now) end }
    {
        spot_held(self.ends, end).is_none()
    }

    // The place of the end; the empty one where it isn't held.
    fn place(&self, end: EndId) -> Spot
        ensures { place_in self.now.table.now result ≡ place_at (ends_of self.now) end }
    {
        match spot_held(self.ends, end) {
            Some(spot) => spot,
            None => self.table.done(),
        }
    }

    fn is_full(&self) -> bool
        ensures { result ≡ is_full self.now.calls }
    {
        self.calls >= MAX_STEPS
    }
}

fn names_text(texts: usize, msg: Msg) -> bool
    ensures { result ≡ names_text texts msg }
{
    match msg {
        Msg::Text(number) => (number as usize) < texts,
        _ => true,
    }
}

/// The first rule that applies, of rules in their order, each with whether it does.
fn first_refusal(tests: &[(SeatRefusal, bool)]) -> Option<SeatRefusal>
    ensures { result ≡ rules.first_refusal tests.now }
{
    for test in tests {
        if test.1 {
            return Some(test.0);
        }
    }
    None
}
