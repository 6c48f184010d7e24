//! Laws over files and worlds; each is the one clause of a function that does nothing.
//!
//! - `ends_are_unshared_at_the_start`, `acts_keep_ends_unshared`: the
//!   invariant of reachable worlds.
//! - `what_acts_is_ready`, `ready_parties_can_act`: a party acts exactly where it is ready.
//! - `a_party_stays_ready`, `acts_commute`: acts of two parties, in a world where no end is shared.
//! - `settled_runs_meet`, `the_end_is_settled`, `each_run_goes_on_to_the_end`: runs of a file.
//! - `steps_name_bound_ends`, `acts_use_bound_ends`: a party uses the ends that are bound at it.
//! - `an_end_has_one_holder`, `a_closed_end_is_bound_nowhere`,
//!   `an_end_on_its_way_is_bound_nowhere`, `claims_never_grow`: where an end is bound.
//! - `lists_are_those_of_the_acts`, `taken_is_a_front_of_sent`, `nobody_takes_more_than_was_sent`:
//!   what was sent and taken in a run.
//! - `what_leads_an_end_leads_what_it_stands_for`: untaken messages of an end
//!   that is taken or accepted.

ghost use Rattle.std.specs.Prelude.{◌≡◌, ◌≢◌, ◌<◌, ◌≤◌, ◌++◌, ℕ, List, length, map, Some, slice_get, sum_by};
ghost use Rattle.sj_base.specs.declared.EndId.{EndId};
ghost use Rattle.sj_lang.specs.FileAt.{FileAt};
ghost use Rattle.sj_lang.specs.Limits.{limits};
ghost use Rattle.sj_base.specs.declared.Msg.{Msg};
ghost use Rattle.sj_lang.specs.Meet.{StandsFor};
ghost use Rattle.sj_lang.specs.Place.{Place};
ghost use Rattle.sj_semantics.specs.Balanced.{LeadsTaker};
ghost use Rattle.sj_semantics.specs.Ends.{Session};
ghost use Rattle.sj_semantics.specs.Acts.{acts_from, sent_on, taken_on};
ghost use Rattle.sj_semantics.specs.Ends.{end_at, other_end, untaken_for};
ghost use Rattle.sj_semantics.specs.Program.{Program};
ghost use Rattle.sj_semantics.specs.Run.{IsRun, after_acts, end_of};
ghost use Rattle.sj_semantics.specs.World.{start_of, Change, World, act_of, change_of};
ghost use Rattle.sj_semantics.specs.State.{IsSettled, state_of};
ghost use Rattle.sj_semantics.specs.Wants.{want_of};
ghost use Rattle.sj_semantics.specs.declared.State.TheVariants.{Ready};
ghost use Rattle.sj_semantics.specs.declared.Want.TheVariants.{Close};
ghost use Rattle.sj_semantics.specs.declared.Want.{Want};
ghost use Rattle.sj_semantics_laws.specs.Bound.{AreBound, IsBound, UsesBound};
ghost use Rattle.sj_semantics_laws.specs.Unshared.{IsToCome, IsUnshared, bindings_of, carried_in, claims_on};

/// At the start of every file no end is bound twice.
pub fn ends_are_unshared_at_the_start()
    ensures { (file : FileAt) → length file.connects ≤ limits.connects → IsUnshared (start_of file) }
{}

/// And so it stays with each act.
pub fn acts_keep_ends_unshared()
    ensures { (w v : World) (p : ℕ) → IsUnshared w → act_of w p ≡ Some v → IsUnshared v }
{}

/// A party that acts is ready.
pub fn what_acts_is_ready()
    ensures { (w v : World) (p : ℕ) → act_of w p ≡ Some v → state_of w p ≡ Ready }
{}

/// A party that is ready can act.
pub fn ready_parties_can_act()
    ensures { (w : World) (p : ℕ) → state_of w p ≡ Ready → (v : World) × (act_of w p ≡ Some v) }
{}

/// A party that is ready stays ready, whatever another one does.
pub fn a_party_stays_ready()
    ensures { (w v : World) (p q : ℕ) → IsUnshared w → p ≢ q → act_of w p ≡ Some v →
        state_of w q ≡ Ready → state_of v q ≡ Ready }
{}

/// The acts of two parties give the same world in both orders.
pub fn acts_commute()
    ensures { (w v u : World) (p q : ℕ) → IsUnshared w → p ≢ q → act_of w p ≡ Some v →
        act_of w q ≡ Some u → (x : World) × (act_of v q ≡ Some x) × (act_of u p ≡ Some x) }
{}

/// Two runs of one file that end settled end in the same world.
pub fn settled_runs_meet()
    ensures { (file : FileAt) (ps qs : List ℕ) (v w : World) → length file.connects ≤ limits.connects →
        IsRun file ps v → IsRun file qs w → IsSettled v → IsSettled w → v ≡ w }
{}

/// The end of a file is settled, and a run of the file ends there.
pub fn the_end_is_settled()
    ensures settled { (file : FileAt) → IsSettled (end_of file) }
    ensures reached { (file : FileAt) → (ps : List ℕ) × IsRun file ps (end_of file) }
{}

/// Each run goes on to the end of its file.
pub fn each_run_goes_on_to_the_end()
    ensures { (file : FileAt) (ps : List ℕ) (w : World) → length file.connects ≤ limits.connects →
        IsRun file ps w → (qs : List ℕ) × (after_acts w qs ≡ Some (end_of file)) }
{}

/// Each end that a program's next step names is bound there.
pub fn steps_name_bound_ends()
    ensures { (g : Program) (want : Want) → want_of g ≡ Some want → AreBound g.ends want }
{}

/// And so is each end that an act uses, unless the use is its beginning.
pub fn acts_use_bound_ends()
    ensures { (w : World) (p : ℕ) (g : Program) (c : Change) → slice_get w.parties p ≡ Some g →
        change_of w p ≡ Some c → UsesBound g.ends c.uses }
{}

/// No end is bound at two parties.
pub fn an_end_has_one_holder()
    ensures { (w : World) (p q : ℕ) (g h : Program) (e : EndId) → IsUnshared w →
        slice_get w.parties p ≡ Some g → slice_get w.parties q ≡ Some h →
        IsBound e g.ends → IsBound e h.ends → p ≢ q → ⊥ }
{}

/// A closed end is bound nowhere and named by no untaken message.
pub fn a_closed_end_is_bound_nowhere()
    ensures { (w v : World) (p : ℕ) (g : Program) (e : EndId) → IsUnshared w →
        slice_get w.parties p ≡ Some g → want_of g ≡ Some (Close e) → act_of w p ≡ Some v →
        claims_on e v ≡ 0 }
{}

/// An end that an untaken message names is bound nowhere.
pub fn an_end_on_its_way_is_bound_nowhere()
    ensures { (w : World) (p : ℕ) (g : Program) (e : EndId) → IsUnshared w →
        1 ≤ sum_by (carried_in e) w.sessions → slice_get w.parties p ≡ Some g →
        bindings_of e g.ends ≡ 0 }
{}

/// No act makes an end bound or on its way more often than it was, unless the end is to come; so a
/// closed end stays closed.
pub fn claims_never_grow()
    ensures { (w v : World) (p : ℕ) (e : EndId) → ¬ IsToCome w e → act_of w p ≡ Some v →
        claims_on e v ≤ claims_on e w }
{}

/// In every run the lists of an end hold what the run's acts sent on it and who took on it.
pub fn lists_are_those_of_the_acts()
    ensures sent { (file : FileAt) (ps : List ℕ) (w : World) (e : EndId) → IsRun file ps w →
        (end_at w.sessions e).sent ≡ sent_on e (acts_from (start_of file) ps) }
    ensures taken { (file : FileAt) (ps : List ℕ) (w : World) (e : EndId) → IsRun file ps w →
        (end_at w.sessions e).takers ≡ map (λ x. x.by) (taken_on e (acts_from (start_of file) ps)) }
{}

/// What was taken on an end, and then what is untaken, is what was sent on the other end, in order.
pub fn taken_is_a_front_of_sent()
    ensures { (file : FileAt) (ps : List ℕ) (w : World) (e : EndId) → IsRun file ps w →
        map (λ x. x.msg) (taken_on e (acts_from (start_of file) ps)) ++ untaken_for w.sessions e
        ≡ map (λ x. x.msg) (sent_on (other_end e) (acts_from (start_of file) ps)) }
{}

/// In every run no more is taken on an end than was sent on the other one.
pub fn nobody_takes_more_than_was_sent()
    ensures { (file : FileAt) (ps : List ℕ) (w : World) (e : EndId) → IsRun file ps w →
        length (end_at w.sessions e).takers ≤ length (end_at w.sessions (other_end e)).sent }
{}

/// Messages that lead the taker at a place to one that meets the last place also lead a taker at
/// each place for which the first one stands.
pub fn what_leads_an_end_leads_what_it_stands_for()
    ensures { (zs : List Session) (t s : Place) (ms : List Msg) (last : Place) → StandsFor t s →
        LeadsTaker zs t ms last → LeadsTaker zs s ms last }
{}
