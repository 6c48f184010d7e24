//! Laws over runs of the forwarding world from the start of an accepted file; each is a clause of
//! a function that does nothing.
//!
//! - `each_run_stands_for_a_plain_run`: the acts are a plain run.
//! - `what_is_on_its_way_is_untaken`: what is stored and in lanes is what the plain world waits
//!   for.
//! - `a_party_acts_where_it_is_ready`, `each_front_fits`, `has_step_tells_the_steps`: which events
//!   are steps; nothing is ever unfit.
//! - `a_quiet_run_is_at_the_end`: where nothing is left to do.
//! - `runs_are_short`: events are few.

ghost use Rattle.std.specs.Prelude.{◌≡◌, ◌↔◌, ◌<◌, ◌≤◌, ℕ, List, ◌∷◌, length, map};
ghost use Rattle.std.specs.Prelude.{None, Some, false, true};
ghost use Rattle.sj_acceptance.specs.Accepted.{IsAccepted};
ghost use Rattle.sj_base.specs.declared.EndId.{EndId};
ghost use Rattle.sj_forward_laws.specs.Kept.{IsOpenKept};
ghost use Rattle.sj_forward_laws.specs.Layout.{IsLaidOut};
ghost use Rattle.sj_forward_laws.specs.Limits.{limit_of_events};
ghost use Rattle.sj_forward_laws.specs.Pipe.{pipe};
ghost use Rattle.sj_forward_laws.specs.Roads.{Chains};
ghost use Rattle.sj_forward_rules.specs.Acts.{acts};
ghost use Rattle.sj_forward_rules.specs.Arrivals.{comes};
ghost use Rattle.sj_forward_rules.specs.Node.{Worked};
ghost use Rattle.sj_forward_rules.specs.Ready.{has_step, is_ready, state_at};
ghost use Rattle.sj_forward_rules.specs.Record.{FrameAt, SentAt, StateAt};
ghost use Rattle.sj_forward_rules.specs.Start.{IsForwardRun};
ghost use Rattle.sj_forward_rules.specs.World.{IsQuietAmong, WorldAt, happens};
ghost use Rattle.sj_lang.specs.FileAt.{FileAt};
ghost use Rattle.sj_rules.specs.Events.{acts_in};
ghost use Rattle.sj_rules.specs.Party.{IsDone, binds, play_of};
ghost use Rattle.sj_rules.specs.Plain.{plain_at};
ghost use Rattle.sj_rules.specs.World.{Deliver, Event, Turn};
ghost use Rattle.sj_semantics.specs.Ends.{untaken_for};
ghost use Rattle.sj_semantics.specs.Program.{Program};
ghost use Rattle.sj_semantics.specs.Run.{IsRun, end_of};
ghost use Rattle.sj_semantics.specs.State.{state_of};
ghost use Rattle.sj_semantics.specs.World.{World};
ghost use Rattle.sj_semantics.specs.declared.State.TheVariants as states;

/// The acts of a run are a plain run, and the world keeps the invariant beside the plain world that
/// they reach. The programs and the counts of requests are the same, and what is bound is in use.
/// What is offered, and then what is in Opens, was opened and not accepted.
pub fn each_run_stands_for_a_plain_run()
    ensures { (file : FileAt) (turns : List Turn) (w : WorldAt Program) → IsAccepted file →
        IsForwardRun file turns w →
        (v : World) × IsRun file (acts_in turns) v
        × IsOpenKept IsDone binds (length file.parties) w (plain_at v) }
{}

/// There are chains of parties, one for each end, and a state for each record of a chain. They are
/// those of the parties' records and of the frames' roads, and no record lies elsewhere. A chain
/// begins at its end's home, also of a session that was opened. An end that a program binds is Held
/// at its party, as the last record. The untaken messages of each end are those of its records and
/// of the frames on their way. Their order is from its last record back to the last record of the
/// other end.
pub fn what_is_on_its_way_is_untaken()
    ensures { (file : FileAt) (turns : List Turn) (w : WorldAt Program) (v : World) →
        IsAccepted file → IsForwardRun file turns w → IsRun file (acts_in turns) v →
        (c : Chains) × (states : EndId → ℕ → StateAt) × IsLaidOut file w v.requests c states
        × ((e : EndId) → e.side < 2 →
        map (λ (m : SentAt). m.msg) (pipe w.lanes c states e) ≡ untaken_for v.sessions e) }
{}

/// A party acts exactly where it is ready by what it holds, and then it is so in the plain world.
pub fn a_party_acts_where_it_is_ready()
    ensures acts { (file : FileAt) (turns : List Turn) (w : WorldAt Program) (p : ℕ) →
        IsAccepted file → IsForwardRun file turns w →
        ((done : Worked Program) × (acts (play_of file) p (w.nodes p) ≡ Some done))
        ↔ (is_ready (state_at (play_of file) (w.nodes p)) ≡ true) }
    ensures plain { (file : FileAt) (turns : List Turn) (w : WorldAt Program) (v : World)
        (p : ℕ) → IsAccepted file → IsForwardRun file turns w → IsRun file (acts_in turns) v →
        is_ready (state_at (play_of file) (w.nodes p)) ≡ true → state_of v p ≡ states.Ready }
{}

/// The front frame of a lane always fits its row.
pub fn each_front_fits()
    ensures row { (file : FileAt) (turns : List Turn) (w : WorldAt Program) (p q : ℕ) (f : FrameAt)
        (rest : List FrameAt) → IsAccepted file → IsForwardRun file turns w →
        w.lanes q p ≡ f ∷ rest →
        (done : Worked Program) × (comes (w.nodes p) q f ≡ Some done) }
    ensures step { (file : FileAt) (turns : List Turn) (w : WorldAt Program) (p q : ℕ) (f : FrameAt)
        (rest : List FrameAt) → IsAccepted file → IsForwardRun file turns w →
        w.lanes q p ≡ f ∷ rest →
        (v : WorldAt Program) × (happens (play_of file) w p (Deliver q) ≡ Some v) }
{}

/// An event is illegal exactly where the lane is empty, or the party isn't ready by what it holds.
pub fn has_step_tells_the_steps()
    ensures step { (file : FileAt) (turns : List Turn) (w : WorldAt Program) (p : ℕ)
        (event : Event) → IsAccepted file → IsForwardRun file turns w →
        has_step (play_of file) w p event ≡ true →
        (v : WorldAt Program) × (happens (play_of file) w p event ≡ Some v) }
    ensures none { (file : FileAt) (turns : List Turn) (w : WorldAt Program) (p : ℕ)
        (event : Event) → IsAccepted file → IsForwardRun file turns w →
        has_step (play_of file) w p event ≡ false → happens (play_of file) w p event ≡ None }
{}

/// A run that leaves the lanes empty and no party with an act is at the end of the file.
pub fn a_quiet_run_is_at_the_end()
    ensures { (file : FileAt) (turns : List Turn) (w : WorldAt Program) → IsAccepted file →
        IsForwardRun file turns w → IsQuietAmong (play_of file) (length file.parties) w →
        IsRun file (acts_in turns) (end_of file)
        × IsOpenKept IsDone binds (length file.parties) w (plain_at (end_of file)) }
{}

/// A run has few events: an act has few deliveries that can come of it, and acts are few.
pub fn runs_are_short()
    ensures { (file : FileAt) (turns : List Turn) (w : WorldAt Program) → IsAccepted file →
        IsForwardRun file turns w → length turns ≤ limit_of_events }
{}
