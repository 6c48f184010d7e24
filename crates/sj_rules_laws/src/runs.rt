//! Laws over runs of the core from the start of an accepted file; each is the one clause of a
//! function that does nothing.
//!
//! - `each_core_run_stands_for_a_plain_run`, `core_runs_have_few_acts`: what the core does is what
//!   the plain world does.
//! - `each_end_lies_in_one_place`, `a_held_end_has_a_front`, `each_cache_has_what_was_not_taken`:
//!   where ends are, and what they have.
//! - `each_front_fits`, `each_number_is_within_its_limit`, `each_party_acts_unless_halted`: nothing
//!   is ever unfit.
//! - `each_history_is_a_core_run`: what a history says.
//! - `a_quiet_core_run_is_at_the_end`, `nothing_is_awaited_at_the_end`: where the core comes to
//!   rest.

ghost use Rattle.std.specs.List.{AllByRecursion};
ghost use Rattle.std.specs.Prelude.{◌≡◌, ℕ, ◌*◌, ◌<◌, ◌≤◌, true, false, List, ◌∷◌, map, None, Some, length, slice_get};
ghost use Rattle.sj_acceptance.specs.Accepted.{IsAccepted};
ghost use Rattle.sj_base.specs.declared.EndId.{EndId};
ghost use Rattle.sj_base.specs.declared.Msg.{Msg};
ghost use Rattle.sj_lang.specs.FileAt.{FileAt};
ghost use Rattle.sj_lang.specs.Place.{Place, done};
ghost use Rattle.sj_rules.specs.Caches.{CacheFits, HasEnd};
ghost use Rattle.sj_rules.specs.Events.{acts_in};
ghost use Rattle.sj_rules.specs.Halts.{halt_of};
ghost use Rattle.sj_rules.specs.History.{IsCoreRun, IsHistory, IsQuiescent, IsQuietAmong, due, turn_of};
ghost use Rattle.sj_rules.specs.Limits.{limit_of_messages, limit_of_steps};
ghost use Rattle.sj_rules.specs.Log.{LineAt, NoteAt};
ghost use Rattle.sj_rules.specs.Reading.{IsOpenKept};
ghost use Rattle.sj_rules.specs.Node.{NodeAt, acts, arrives};
ghost use Rattle.sj_rules.specs.Party.{IsDone, binds, play_of};
ghost use Rattle.sj_rules.specs.Plain.{plain_at};
ghost use Rattle.sj_rules.specs.HeldStands.{HeldStands};
ghost use Rattle.sj_rules.specs.PlainChanges.{waits_of};
ghost use Rattle.sj_rules.specs.PlainSide.{IsFront};
ghost use Rattle.sj_rules.specs.Binding.{NamesKnown};
ghost use Rattle.sj_rules.specs.Record.{EndAt, Held, HeldAt, other_end};
ghost use Rattle.sj_rules.specs.Rows.{IsPick, Worked};
ghost use Rattle.sj_rules.specs.Spots.{IsAtRest, LiesOnce, Spot};
ghost use Rattle.sj_rules.specs.StandsFor.{StandsFor};
ghost use Rattle.sj_rules.specs.Frames.{FrameAt, is_proper};
ghost use Rattle.sj_rules.specs.Within.{IsWithin};
ghost use Rattle.sj_rules.specs.World.{Deliver, Event, Turn, WorldAt, happens};
ghost use Rattle.sj_semantics.specs.Program.{Program};
ghost use Rattle.sj_semantics.specs.Run.{IsRun, end_of};
ghost use Rattle.sj_semantics.specs.World.{World};

/// The acts of a core run are a plain run, and the core world stands for the world it reaches.
pub fn each_core_run_stands_for_a_plain_run()
    ensures { (file : FileAt) (turns : List Turn) (core : WorldAt Place Program) →
        IsAccepted file → IsCoreRun file turns core →
        (w : World) × IsRun file (acts_in turns) w × IsOpenKept IsDone binds done core (plain_at w)
        × StandsFor IsDone done core (plain_at w) }
{}

/// A core run has at most 10,000 acts for each party.
pub fn core_runs_have_few_acts()
    ensures { (file : FileAt) (turns : List Turn) (core : WorldAt Place Program) →
        IsAccepted file → IsCoreRun file turns core →
        length (acts_in turns) ≤ limit_of_steps * length file.parties }
{}

/// Each end lies once or is gone, and one party at most awaits it, from where it lies.
pub fn each_end_lies_in_one_place()
    ensures { (file : FileAt) (turns : List Turn) (core : WorldAt Place Program) (e : EndId) →
        IsAccepted file → IsCoreRun file turns core → e.side < 2 → LiesOnce core e }
{}

/// What is untaken at a Held end is a prefix of what waits for it in the plain world. Where the end
/// was accepted, it has its place and its handovers too.
pub fn a_held_end_has_a_front()
    ensures accepted { (file : FileAt) (turns : List Turn) (core : WorldAt Place Program) →
        IsAccepted file → IsCoreRun file turns core →
        (w : World) × IsRun file (acts_in turns) w
        × ((p : ℕ) (e : EndId) (h : HeldAt Place) → e.side < 2 →
        ((plain_at w).sides e).offered ≡ false → (core.nodes p).main e ≡ Some (Held h) →
        HeldStands (plain_at w) e h) }
    ensures untaken { (file : FileAt) (turns : List Turn) (core : WorldAt Place Program) →
        IsAccepted file → IsCoreRun file turns core →
        (w : World) × IsRun file (acts_in turns) w
        × ((p : ℕ) (e : EndId) (h : HeldAt Place) → e.side < 2 →
        (core.nodes p).main e ≡ Some (Held h) → IsFront h.untaken (waits_of (plain_at w) e)) }
{}

/// Wherever an end lies, its cache begins where the other end has taken, or before, and has all
/// that was sent from there on. What the other end has taken was sent.
pub fn each_cache_has_what_was_not_taken()
    ensures plain { (file : FileAt) (turns : List Turn) (core : WorldAt Place Program) →
        IsAccepted file → IsCoreRun file turns core →
        (w : World) × IsRun file (acts_in turns) w
        × ((e : EndId) (at : Spot) (k : EndAt Place) → e.side < 2 → HasEnd core e at k →
        CacheFits ((plain_at w).sides (other_end e)) ((plain_at w).sides e) k) }
    ensures counts { (file : FileAt) (turns : List Turn) (core : WorldAt Place Program)
        (e : EndId) (at there : Spot) (k l : EndAt Place) → IsAccepted file →
        IsCoreRun file turns core → e.side < 2 → HasEnd core e at k →
        HasEnd core (other_end e) there l → (k.base ≤ l.taken) × (l.taken ≤ k.sent) }
{}

/// The first frame of each lane fits the row of its party, however caches are trimmed, and with the
/// limits of frames too.
pub fn each_front_fits()
    ensures step { (file : FileAt) (turns : List Turn) (core : WorldAt Place Program)
        (pick : ℕ → ℕ → ℕ) (p q : ℕ) (f : FrameAt Place) (rest : List (FrameAt Place)) →
        IsAccepted file → IsCoreRun file turns core → IsPick pick → core.lanes q p ≡ f ∷ rest →
        (after : WorldAt Place Program)
        × (happens (play_of file) pick core p (Deliver q) ≡ Some after) }
    ensures arrives { (file : FileAt) (turns : List Turn) (core : WorldAt Place Program)
        (pick : ℕ → ℕ → ℕ) (p q : ℕ) (f : FrameAt Place) (rest : List (FrameAt Place)) →
        IsAccepted file → IsCoreRun file turns core → IsPick pick → core.lanes q p ≡ f ∷ rest →
        (worked : Worked Place (NodeAt Place Program))
        × (arrives done (length file.parties) pick (core.nodes p) q f ≡ Some worked) }
{}

/// In a core run all numbers are within their limits, and a Held end has sent and taken fewer than
/// 1,000,000 messages. What is untaken there names sessions and parties of the file.
pub fn each_number_is_within_its_limit()
    ensures within { (file : FileAt) (turns : List Turn) (core : WorldAt Place Program) →
        IsAccepted file → IsCoreRun file turns core → IsWithin (length file.parties) core }
    ensures frames { (file : FileAt) (turns : List Turn) (core : WorldAt Place Program)
        (p q : ℕ) → IsAccepted file → IsCoreRun file turns core →
        AllByRecursion (λ f. is_proper (length file.parties) f ≡ true) (core.lanes p q) }
    ensures counts { (file : FileAt) (turns : List Turn) (core : WorldAt Place Program) (p : ℕ)
        (e : EndId) (h : HeldAt Place) → IsAccepted file → IsCoreRun file turns core →
        e.side < 2 → (core.nodes p).main e ≡ Some (Held h) →
        (h.end.sent < limit_of_messages) × (h.end.taken < limit_of_messages) }
    ensures names { (file : FileAt) (turns : List Turn) (core : WorldAt Place Program) (p : ℕ)
        (e : EndId) (h : HeldAt Place) (j : ℕ) (m : Msg) → IsAccepted file →
        IsCoreRun file turns core → e.side < 2 → (core.nodes p).main e ≡ Some (Held h) →
        slice_get h.untaken j ≡ Some m →
        NamesKnown (length file.parties) (length file.connects) m }
{}

/// A party acts where no cause keeps it from it.
pub fn each_party_acts_unless_halted()
    ensures { (file : FileAt) (turns : List Turn) (core : WorldAt Place Program) (p : ℕ) →
        IsAccepted file → IsCoreRun file turns core →
        halt_of (play_of file) (core.nodes p) ≡ None →
        (worked : Worked Place (NodeAt Place Program))
        × (acts (play_of file) p (core.nodes p) ≡ Some worked) }
{}

/// A core run that leaves its parties nothing to do is quiescent and stands for the end of its
/// file.
pub fn a_quiet_core_run_is_at_the_end()
    ensures quiescent { (file : FileAt) (turns : List Turn) (core : WorldAt Place Program) →
        IsAccepted file → IsCoreRun file turns core →
        IsQuietAmong (play_of file) (length file.parties) core → IsQuiescent (play_of file) core }
    ensures end { (file : FileAt) (turns : List Turn) (core : WorldAt Place Program) →
        IsAccepted file → IsCoreRun file turns core →
        IsQuietAmong (play_of file) (length file.parties) core →
        IsRun file (acts_in turns) (end_of file)
        × IsOpenKept IsDone binds done core (plain_at (end_of file)) }
{}

/// There nobody awaits an end, and an end is parked only where its message waits.
pub fn nothing_is_awaited_at_the_end()
    ensures { (file : FileAt) (turns : List Turn) (core : WorldAt Place Program) (e : EndId) →
        IsAccepted file → IsCoreRun file turns core →
        IsQuietAmong (play_of file) (length file.parties) core → e.side < 2 →
        IsAtRest core (plain_at (end_of file)) e }
{}

/// A history is of a core run, with one line for each event; and each step has a line, with the
/// clock that its party has then.
pub fn each_history_is_a_core_run()
    ensures run { (file : FileAt) (pick : ℕ → ℕ → ℕ) (lines : List LineAt)
        (core : WorldAt Place Program) → IsPick pick → IsHistory pick file lines core →
        IsCoreRun file (map turn_of lines) core }
    ensures line { (file : FileAt) (core after : WorldAt Place Program) (pick : ℕ → ℕ → ℕ)
        (p : ℕ) (event : Event) →
        happens (play_of file) pick core p event ≡ Some after →
        (note : NoteAt) × (due (play_of file) pick core p event ≡ Some (record {
          party = p;
          entry = record { clock = (after.nodes p).clock; event = event; note = note };
        })) }
{}
