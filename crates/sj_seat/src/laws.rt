//! Laws of the rules: no rule refuses a call exactly where the laws of seats let it happen, a text
//! is one that the code may name, and there are calls left.
ghost use Rattle.std.specs.Prelude.{◌≡◌, ◌↔◌, ◌⊎◌, ◌<◌, ℕ, None, true};
ghost use Rattle.sj_base.specs.declared.EndId.{EndId};
ghost use Rattle.sj_base.specs.declared.Msg.{Msg};
ghost use Rattle.sj_rules.specs.Limits.{limit_of_steps};
ghost use Rattle.sj_rules.specs.Node as wanted;
ghost use Rattle.sj_seat.specs.Rules.{close_tests, delegate_tests, first_refusal, names_text, place_at};
ghost use Rattle.sj_seat.specs.Rules.{begins_at, open_tests, send_tests, take_end_tests, take_tests};
ghost use Rattle.sj_seat_laws.specs.Calls.{Ends, Openings, accepts, closes, delegates, place_opened, requests, sends, takes};
ghost use Rattle.sj_seat_laws.specs.Guards.{carried_next, want_of_call};

/// No rule refuses a call exactly where it is guarded. A take is refused by neither of its two forms'
/// rules where it is.
pub fn the_rules_are_the_guard()
    ensures sends { (texts calls : ℕ) (os : Openings) (bs : Ends) (e : EndId) (m : Msg) →
        (first_refusal (send_tests texts calls bs e m) ≡ None) ↔
        ((want_of_call os bs (sends e m) ≡ wanted.sends e m)
        × (names_text texts m ≡ true) × (calls < limit_of_steps)) }
    ensures delegates { (calls : ℕ) (os : Openings) (bs : Ends) (c e : EndId) →
        (first_refusal (delegate_tests calls bs c e) ≡ None) ↔
        ((want_of_call os bs (delegates c e) ≡ wanted.delegates c e) × (calls < limit_of_steps)) }
    ensures takes { (calls : ℕ) (os : Openings) (bs : Ends) (e : EndId) →
        ((first_refusal (take_tests calls bs e) ≡ None)
        ⊎ (first_refusal (take_end_tests calls bs e) ≡ None)) ↔
        ((want_of_call os bs (takes e) ≡ wanted.takes e (carried_next (place_at bs e)))
        × (calls < limit_of_steps)) }
    ensures closes { (calls : ℕ) (os : Openings) (bs : Ends) (e : EndId) →
        (first_refusal (close_tests calls bs e) ≡ None) ↔
        ((want_of_call os bs (closes e) ≡ wanted.closes e) × (calls < limit_of_steps)) }
    ensures requests { (calls : ℕ) (os : Openings) (bs : Ends) (q n : ℕ) →
        (first_refusal (open_tests calls (place_opened os.requests q n)) ≡ None) ↔
        ((want_of_call os bs (requests q n) ≡ wanted.requests (begins_at os.requests q n) q)
        × (calls < limit_of_steps)) }
    ensures accepts { (calls : ℕ) (os : Openings) (bs : Ends) (q n : ℕ) →
        (first_refusal (open_tests calls (place_opened os.accepts q n)) ≡ None) ↔
        ((want_of_call os bs (accepts q n) ≡ wanted.accepts (begins_at os.accepts q n) q)
        × (calls < limit_of_steps)) }
{}
