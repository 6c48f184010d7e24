//! Laws over the runs of a file, whatever its parties do between; each is the one clause of a
//! function that does nothing.
//!
//! - `runs_lead_to_unshared_worlds`, `a_front_of_a_run_is_a_run`: what every run goes through.
//! - `an_end_has_one_holder_in_every_run`: where an end is bound.
//! - `an_end_is_bound_nowhere_from_its_close_on`,
//!   `a_delegated_end_is_bound_nowhere_until_it_is_taken`: where it is bound no longer, or not yet.
//! - `a_party_stays_ready_over_acts_of_others`: any acts of others.
//! - `sessions_are_accepted_in_order`, `each_end_has_its_session`,
//!   `nothing_is_opened_without_a_request`: sessions opened at run time.

ghost use Rattle.std.specs.Prelude.{◌≡◌, ◌++◌, ◌≤◌, [], ℕ, List, length, Some, slice_get};
ghost use Rattle.sj_base.specs.declared.EndId.{EndId};
ghost use Rattle.sj_lang.specs.FileAt.{FileAt};
ghost use Rattle.sj_lang.specs.Limits.{limits};
ghost use Rattle.sj_semantics.specs.Ends.{end_at};
ghost use Rattle.sj_semantics.specs.Program.{Program};
ghost use Rattle.sj_semantics.specs.Run.{IsRun, after_acts};
ghost use Rattle.sj_semantics.specs.State.{state_of};
ghost use Rattle.sj_semantics.specs.Wants.{want_of};
ghost use Rattle.sj_semantics.specs.World.{World, act_of, session_message};
ghost use Rattle.sj_semantics.specs.declared.State.TheVariants.{Ready};
ghost use Rattle.sj_semantics.specs.declared.Want.TheVariants.{Close, Delegate};
ghost use Rattle.sj_semantics_laws.specs.Openless.{IsOpenless};
ghost use Rattle.sj_semantics_laws.specs.Runs.{AcceptedInOrder, HasSessions, IsBoundAt, IsBoundNowhere, IsNoneOf, IsUntaken};
ghost use Rattle.sj_semantics_laws.specs.Unshared.{IsUnshared, claims_on};

/// In every world to which a run leads no end is bound or on its way twice.
pub fn runs_lead_to_unshared_worlds()
    ensures { (file : FileAt) (ps : List ℕ) (w : World) → length file.connects ≤ limits.connects →
        IsRun file ps w → IsUnshared w }
{}

/// The first acts of a run are a run, and the others go on from the world to which they lead.
pub fn a_front_of_a_run_is_a_run()
    ensures { (file : FileAt) (ps qs : List ℕ) (w : World) → IsRun file (ps ++ qs) w →
        (v : World) × IsRun file ps v × (after_acts v qs ≡ Some w) }
{}

/// In every world of a run an end is bound at one party at most.
pub fn an_end_has_one_holder_in_every_run()
    ensures { (file : FileAt) (ps : List ℕ) (w : World) (p q : ℕ) (e : EndId) →
        length file.connects ≤ limits.connects → IsRun file ps w → IsBoundAt w p e → IsBoundAt w q e → p ≡ q }
{}

/// From the act that closes an end on, whatever acts come, the end is bound nowhere, and no
/// untaken message names it.
pub fn an_end_is_bound_nowhere_from_its_close_on()
    ensures bound { (file : FileAt) (ps qs : List ℕ) (w v u : World) (p : ℕ) (g : Program)
        (e : EndId) → length file.connects ≤ limits.connects → IsRun file ps w →
        slice_get w.parties p ≡ Some g → want_of g ≡ Some (Close e) → act_of w p ≡ Some v → after_acts v qs ≡ Some u →
        IsBoundNowhere u e }
    ensures claimed { (file : FileAt) (ps qs : List ℕ) (w v u : World) (p : ℕ) (g : Program)
        (e : EndId) → length file.connects ≤ limits.connects → IsRun file ps w →
        slice_get w.parties p ≡ Some g → want_of g ≡ Some (Close e) → act_of w p ≡ Some v → after_acts v qs ≡ Some u →
        claims_on e u ≡ 0 }
{}

/// An act that delegates an end sends its session message. From that act on, whatever acts come,
/// the end is bound nowhere as long as that message isn't taken.
pub fn a_delegated_end_is_bound_nowhere_until_it_is_taken()
    ensures sent { (w v : World) (p : ℕ) (g : Program) (e y : EndId) → slice_get w.parties p ≡ Some g →
        want_of g ≡ Some (Delegate e y) → act_of w p ≡ Some v →
        slice_get (end_at v.sessions e).sent (length (end_at w.sessions e).sent)
        ≡ Some (record { msg = session_message y p; by = p }) }
    ensures bound { (file : FileAt) (ps qs : List ℕ) (w v u : World) (p : ℕ) (g : Program)
        (e y : EndId) → length file.connects ≤ limits.connects → IsRun file ps w → slice_get w.parties p ≡ Some g →
        want_of g ≡ Some (Delegate e y) → act_of w p ≡ Some v → after_acts v qs ≡ Some u →
        IsUntaken u e (length (end_at w.sessions e).sent) → IsBoundNowhere u y }
{}

/// A party that is ready stays ready over any acts of others.
pub fn a_party_stays_ready_over_acts_of_others()
    ensures { (file : FileAt) (ps qs : List ℕ) (w v : World) (p : ℕ) →
        length file.connects ≤ limits.connects → IsRun file ps w → state_of w p ≡ Ready → IsNoneOf p qs → after_acts w qs ≡ Some v → state_of v p ≡ Ready }
{}

/// In every world of a run, of the sessions that one party opened to another those that were
/// accepted come first.
pub fn sessions_are_accepted_in_order()
    ensures { (file : FileAt) (ps : List ℕ) (w : World) (p : ℕ) → IsRun file ps w →
        AcceptedInOrder (w.requests p) }
{}

/// In every world of a run each end that is bound or on its way, and each session that was opened,
/// has its session in the world's list.
pub fn each_end_has_its_session()
    ensures { (file : FileAt) (ps : List ℕ) (w : World) → IsRun file ps w → HasSessions w }
{}

/// Where no party of a file requests or accepts, nothing is opened in its runs.
pub fn nothing_is_opened_without_a_request()
    ensures { (file : FileAt) (ps : List ℕ) (w : World) (p : ℕ) → IsOpenless file →
        IsRun file ps w → w.requests p ≡ [] }
{}
