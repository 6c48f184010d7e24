//! Laws over runs of accepted files; each is the one clause of a function that does nothing.
//!
//! - `the_greeting_is_accepted`, `a_file_that_opens_a_session_is_accepted`,
//!   `a_file_with_a_narrower_selection_is_accepted`: there are such files.
//! - `sessions_stay_balanced`: the two places and the two lists of untaken messages, of a session
//!   that is opened at run time from its request on.
//! - `no_program_is_stuck`, `steps_fit_the_places`: the next step of a party.
//! - `the_next_message_fits`, `the_next_message_has_a_place_after_it`: the next message of an end.
//! - `a_taken_end_stands_for_the_body`,
//!   `an_accepted_end_stands_for_the_body`: an end that is bound.
//! - `done_leaves_nothing_untaken`, `done_takes_all_that_was_sent`: where all is done.
//! - `settled_runs_have_the_headline`: all of it at once, of a run to where nobody can go on.

ghost use Rattle.std.specs.Prelude.{◌≡◌, ℕ, List, [], map, Some, slice_get, true};
ghost use Rattle.sj_acceptance.specs.Accepted.{IsAccepted};
ghost use Rattle.sj_headline_laws.specs.Fitting.{FitsPlaces};
ghost use Rattle.sj_headline_laws.specs.Headline.{IsHeadline};
ghost use Rattle.sj_base.specs.declared.EndId.{EndId};
ghost use Rattle.sj_base.specs.declared.Msg.TheVariants.{Sess};
ghost use Rattle.sj_lang.specs.After.{after_place};
ghost use Rattle.sj_lang.specs.FileAt.{FileAt, protocol_named};
ghost use Rattle.sj_lang.specs.Meet.{StandsFor};
ghost use Rattle.sj_lang.specs.Place.{Place};
ghost use Rattle.sj_lang.specs.declared.proto.Way.TheVariants.{Into};
ghost use Rattle.sj_semantics.specs.Acts.{acts_from, sent_on, taken_on};
ghost use Rattle.sj_semantics.specs.Balanced.{FitsNext, IsBalanced};
ghost use Rattle.sj_semantics.specs.Ends.{end_at, next_for, other_end, untaken_for};
ghost use Rattle.sj_semantics.specs.Program.{Program};
ghost use Rattle.sj_semantics.specs.Requests.{first_offer, opened_number};
ghost use Rattle.sj_semantics.specs.Run.{IsRun};
ghost use Rattle.sj_semantics.specs.World.{start_of, World};
ghost use Rattle.sj_semantics.specs.State.{IsSettled, verdict_of};
ghost use Rattle.sj_semantics.specs.Wants.{want_of};
ghost use Rattle.sj_semantics.specs.Fitting.{fits};
ghost use Rattle.sj_semantics.specs.declared.Awaits.{Awaits};
ghost use Rattle.sj_semantics.specs.declared.Awaits.TheVariants.{Session};
ghost use Rattle.sj_semantics.specs.declared.Passed.{Passed};
ghost use Rattle.sj_semantics.specs.declared.Verdict.TheVariants.{Done};
ghost use Rattle.sj_semantics.specs.declared.Want.TheVariants.{Accept, Take};
ghost use Rattle.sj_semantics.specs.declared.Want.{Want};
ghost use Rattle.sj_semantics_laws.specs.OpeningSamples.{accepted, narrower};
ghost use Rattle.sj_semantics_laws.specs.Samples.{greeting};

/// The file in which one number is sent is accepted.
pub fn the_greeting_is_accepted()
    ensures { IsAccepted greeting }
{}

/// And so is one in which a session is requested and accepted.
pub fn a_file_that_opens_a_session_is_accepted()
    ensures { IsAccepted accepted }
{}

/// And so is one in which a selection of one label meets a branching of two.
pub fn a_file_with_a_narrower_selection_is_accepted()
    ensures { IsAccepted narrower }
{}

/// In every run each session is balanced.
pub fn sessions_stay_balanced()
    ensures { (file : FileAt) (ps : List ℕ) (w : World) → IsAccepted file → IsRun file ps w →
        (s : ℕ) → IsBalanced w.sessions s }
{}

/// Each program has a next step.
pub fn no_program_is_stuck()
    ensures { (file : FileAt) (ps : List ℕ) (w : World) (p : ℕ) (g : Program) → IsAccepted file →
        IsRun file ps w → slice_get w.parties p ≡ Some g →
        (want : Want) × (want_of g ≡ Some want) }
{}

/// A place follows what the step sends, an end that it delegates stands for the carried place, and
/// an end that it closes is at its end.
pub fn steps_fit_the_places()
    ensures { (file : FileAt) (ps : List ℕ) (w : World) (p : ℕ) (g : Program) (want : Want) →
        IsAccepted file → IsRun file ps w → slice_get w.parties p ≡ Some g →
        want_of g ≡ Some want → FitsPlaces w.sessions want }
{}

/// The next message is one that the taker's statement can take.
pub fn the_next_message_fits()
    ensures { (file : FileAt) (ps : List ℕ) (w : World) (p : ℕ) (g : Program) (e : EndId)
        (a : Awaits) (x : Passed) → IsAccepted file → IsRun file ps w →
        slice_get w.parties p ≡ Some g → want_of g ≡ Some (Take e a) →
        next_for w.sessions e ≡ Some x → fits g x.msg ≡ true }
{}

/// A place follows the next message of an end, and an end that it names stands for the carried
/// place.
pub fn the_next_message_has_a_place_after_it()
    ensures { (file : FileAt) (ps : List ℕ) (w : World) (e : EndId) (x : Passed) →
        IsAccepted file → IsRun file ps w → next_for w.sessions e ≡ Some x →
        (next : Place) × (after_place (end_at w.sessions e).place Into x.msg ≡ Some next)
        × FitsNext w.sessions (end_at w.sessions e).place x.msg }
{}

/// An end that is taken stands for the body of the protocol that the statement names.
pub fn a_taken_end_stands_for_the_body()
    ensures { (file : FileAt) (ps : List ℕ) (w : World) (p q : ℕ) (g : Program) (e : EndId)
        (x : Passed) (s d k : ℕ) → IsAccepted file → IsRun file ps w →
        slice_get w.parties p ≡ Some g → want_of g ≡ Some (Take e (Session q)) →
        next_for w.sessions e ≡ Some x → x.msg ≡ Sess s d k →
        (body : Place) × (protocol_named file.protocols q ≡ Some body)
        × StandsFor (end_at w.sessions (record { sess = s; side = d })).place body }
{}

/// And so does the second end of a session that is accepted.
pub fn an_accepted_end_stands_for_the_body()
    ensures { (file : FileAt) (ps : List ℕ) (w : World) (p q n k : ℕ) (g : Program) →
        IsAccepted file → IsRun file ps w → slice_get w.parties p ≡ Some g →
        want_of g ≡ Some (Accept n q) → first_offer p (w.requests q) ≡ Some k →
        (body : Place) × (protocol_named file.protocols n ≡ Some body)
        × StandsFor (end_at w.sessions (record { sess = opened_number q k; side = 1 })).place body }
{}

/// Where a run ends done, nothing is untaken.
pub fn done_leaves_nothing_untaken()
    ensures { (file : FileAt) (ps : List ℕ) (w : World) → IsAccepted file → IsRun file ps w →
        verdict_of w ≡ Done → (e : EndId) → untaken_for w.sessions e ≡ [] }
{}

/// And what was taken on an end is all that was sent on the other one, in order.
pub fn done_takes_all_that_was_sent()
    ensures { (file : FileAt) (ps : List ℕ) (w : World) (e : EndId) → IsAccepted file →
        IsRun file ps w → verdict_of w ≡ Done →
        map (λ x. x.msg) (taken_on e (acts_from (start_of file) ps))
        ≡ map (λ x. x.msg) (sent_on (other_end e) (acts_from (start_of file) ps)) }
{}

/// Each run of an accepted file to where nobody can go on has the headline.
pub fn settled_runs_have_the_headline()
    ensures { (file : FileAt) (acts : List ℕ) (end : World) → IsAccepted file →
        IsRun file acts end → IsSettled end → IsHeadline file acts end }
{}
