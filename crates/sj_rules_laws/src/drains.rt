//! Laws over how long runs of the core are; each is the one clause of a function that does nothing.
//!
//! - `core_runs_are_short`: a core run has few events for each act, and so it has few.
//! - `each_core_run_drains`, `each_drain_ends_at_the_end`: it can go on until nothing is left to
//!   do.
//! - `clocks_count_events`: clocks are as low.

ghost use Rattle.std.specs.Prelude.{◌≡◌, ◌≢◌, ℕ, ◌+◌, ◌*◌, ◌<◌, ◌≤◌, List, ◌++◌, length, Some};
ghost use Rattle.sj_acceptance.specs.Accepted.{IsAccepted};
ghost use Rattle.sj_lang.specs.FileAt.{FileAt};
ghost use Rattle.sj_lang.specs.Place.{Place, done};
ghost use Rattle.sj_rules.specs.Drain.{IsDrained};
ghost use Rattle.sj_rules.specs.Events.{acts_in};
ghost use Rattle.sj_rules.specs.History.{IsCoreRun, IsQuietAmong};
ghost use Rattle.sj_rules.specs.Reading.{IsOpenKept};
ghost use Rattle.sj_rules.specs.Party.{IsDone, binds, play_of};
ghost use Rattle.sj_rules.specs.Plain.{plain_at};
ghost use Rattle.sj_rules.specs.Rows.{IsPick};
ghost use Rattle.sj_rules.specs.Within.{ClocksWithin};
ghost use Rattle.sj_rules.specs.World.{Event, Run, Turn, WorldAt, happens};
ghost use Rattle.sj_rules_laws.specs.Limits.{limit_of_events, limit_of_events_for_act};
ghost use Rattle.sj_semantics.specs.Program.{Program};
ghost use Rattle.sj_semantics.specs.Run.{IsRun, end_of};

/// A core run has few events for each act, and in all, and so has one that goes on from there.
pub fn core_runs_are_short()
    ensures acts { (file : FileAt) (turns : List Turn) (core : WorldAt Place Program) →
        IsAccepted file → IsCoreRun file turns core →
        length turns ≤ limit_of_events_for_act * length (acts_in turns) }
    ensures bound { (file : FileAt) (turns : List Turn) (core : WorldAt Place Program) →
        IsAccepted file → IsCoreRun file turns core → length turns ≤ limit_of_events }
    ensures further { (file : FileAt) (turns more : List Turn)
        (core last : WorldAt Place Program) → IsAccepted file → IsCoreRun file turns core →
        Run (play_of file) core more last →
        length turns + length more ≤ limit_of_events }
{}

/// Each core run has a drain, however caches are trimmed.
pub fn each_core_run_drains()
    ensures { (file : FileAt) (turns : List Turn) (core : WorldAt Place Program)
        (pick : ℕ → ℕ → ℕ) → IsAccepted file → IsCoreRun file turns core → IsPick pick →
        (more : List Turn) × (last : WorldAt Place Program)
        × IsDrained (play_of file) pick (length file.parties) core more last }
{}

/// However caches are trimmed, a drain goes on with the core run, and leaves nothing to do at the
/// end of the file.
pub fn each_drain_ends_at_the_end()
    ensures run { (file : FileAt) (turns more : List Turn) (core last : WorldAt Place Program)
        (pick : ℕ → ℕ → ℕ) → IsCoreRun file turns core → IsPick pick →
        IsDrained (play_of file) pick (length file.parties) core more last →
        IsCoreRun file (turns ++ more) last
        × IsQuietAmong (play_of file) (length file.parties) last }
    ensures end { (file : FileAt) (turns more : List Turn) (core last : WorldAt Place Program)
        (pick : ℕ → ℕ → ℕ) → IsAccepted file → IsCoreRun file turns core → IsPick pick →
        IsDrained (play_of file) pick (length file.parties) core more last →
        IsRun file (acts_in (turns ++ more)) (end_of file)
        × IsOpenKept IsDone binds done last (plain_at (end_of file)) }
{}

/// No clock of a party or a frame is above the number of events before, and each event raises its
/// party's.
pub fn clocks_count_events()
    ensures low { (file : FileAt) (turns : List Turn) (core : WorldAt Place Program) →
        IsCoreRun file turns core → ClocksWithin (length turns) core }
    ensures rises { (file : FileAt) (core after : WorldAt Place Program) (pick : ℕ → ℕ → ℕ)
        (p : ℕ) (event : Event) →
        happens (play_of file) pick core p event ≡ Some after →
        ((core.nodes p).clock < (after.nodes p).clock)
        × ((q : ℕ) → q ≢ p → (after.nodes q).clock ≡ (core.nodes q).clock) }
{}
