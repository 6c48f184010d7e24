//! Laws of protocols; each is the one clause of a function that does nothing.
//!
//! - `the_dual_of_the_dual_is_the_protocol`, `a_protocol_meets_its_dual`: duality.
//! - `protocols_meet_in_both_orders`, `what_meets_an_end_meets_what_it_stands_for`,
//!   `what_is_sent_can_be_taken`, `what_stands_in_takes_no_more`,
//!   `what_stands_in_sends_no_less`, `the_test_tells_what_meets`: protocols that meet.
#![tactic(auto, using(crate::proofs::DualLemmas::duals))]

ghost use Rattle.std.specs.Prelude.{◌≡◌, ◌↔◌, Some, true};
ghost use Rattle.sj_base.specs.declared.Msg.{Msg};
ghost use Rattle.sj_lang.specs.declared.proto.Way.TheVariants.{Into, Out};
ghost use Rattle.sj_lang.specs.After.{after_place};
ghost use Rattle.sj_lang.specs.Place.{Place};
ghost use Rattle.sj_lang.specs.Dual.{dual_of};
ghost use Rattle.sj_lang.specs.Meet.{Meets, StandsFor};
ghost use Rattle.sj_lang.specs.MeetTests.{meets};

/// The dual of the dual is the protocol itself.
pub fn the_dual_of_the_dual_is_the_protocol()
    ensures { (p : Place) → dual_of (dual_of p) ≡ p }
{}

/// Where one protocol meets another, the other meets the one.
pub fn protocols_meet_in_both_orders()
    ensures { (p q : Place) → Meets p q → Meets q p }
{}

/// A protocol and its dual meet.
pub fn a_protocol_meets_its_dual()
    ensures { (p : Place) → Meets p (dual_of p) }
{}

/// What meets a place meets each place for which that one can stand.
pub fn what_meets_an_end_meets_what_it_stands_for()
    ensures { (p t s : Place) → Meets p t → StandsFor t s → Meets p s }
{}

/// What the one of two that meet can send, the other can take, and the places after it meet.
pub fn what_is_sent_can_be_taken()
    ensures { (p q p' : Place) (m : Msg) → Meets p q → after_place p Out m ≡ Some p' →
        (q' : Place) × (after_place q Into m ≡ Some q') × Meets p' q' }
{}

/// The test that computes holds exactly where two protocols meet.
pub fn the_test_tells_what_meets()
    ensures { (p q : Place) → (meets p q ≡ true) ↔ Meets p q }
{}

/// Where one place stands for another, what can be taken at the one can be taken at the other, and
/// after it the one stands for the other again.
pub fn what_stands_in_takes_no_more()
    ensures { (t s t' : Place) (m : Msg) → StandsFor t s → after_place t Into m ≡ Some t' →
        (s' : Place) × (after_place s Into m ≡ Some s') × StandsFor t' s' }
{}

/// Where one place stands for another, what can be sent at the other can be sent at the one, and
/// after it the one stands for the other again.
pub fn what_stands_in_sends_no_less()
    ensures { (t s s' : Place) (m : Msg) → StandsFor t s → after_place s Out m ≡ Some s' →
        (t' : Place) × (after_place t Out m ≡ Some t') × StandsFor t' s' }
{}
