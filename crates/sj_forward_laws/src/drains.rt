//! Laws over drains; each is the one clause of a function that does nothing.
//!
//! - `each_run_drains`, `a_drain_is_one_list_of_events`, `each_drain_ends_at_the_end`: rounds until
//!   one has no event.

ghost use Rattle.std.specs.Prelude.{◌≡◌, ◌++◌, ℕ, List, length};
ghost use Rattle.sj_acceptance.specs.Accepted.{IsAccepted};
ghost use Rattle.sj_forward_laws.specs.Kept.{IsOpenKept};
ghost use Rattle.sj_forward_rules.specs.Drain.{IsDrained};
ghost use Rattle.sj_forward_rules.specs.Start.{IsForwardRun};
ghost use Rattle.sj_forward_rules.specs.World.{IsQuietAmong, WorldAt};
ghost use Rattle.sj_lang.specs.FileAt.{FileAt};
ghost use Rattle.sj_rules.specs.Events.{acts_in};
ghost use Rattle.sj_rules.specs.Party.{IsDone, binds, play_of};
ghost use Rattle.sj_rules.specs.Plain.{plain_at};
ghost use Rattle.sj_rules.specs.World.{Turn};
ghost use Rattle.sj_semantics.specs.Program.{Program};
ghost use Rattle.sj_semantics.specs.Run.{IsRun, end_of};

/// Each run has a drain.
pub fn each_run_drains()
    ensures { (file : FileAt) (turns : List Turn) (w : WorldAt Program) → IsAccepted file →
        IsForwardRun file turns w →
        (more : List Turn) × (last : WorldAt Program)
        × IsDrained (play_of file) (length file.parties) w more last }
{}

/// The events of a drain are determined: so are the deliveries among them, which are counted.
pub fn a_drain_is_one_list_of_events()
    ensures { (file : FileAt) (n : ℕ) (w first second : WorldAt Program) (ts us : List Turn) →
        IsDrained (play_of file) n w ts first → IsDrained (play_of file) n w us second →
        (ts ≡ us) × (first ≡ second) }
{}

/// A drain goes on with a run, leaves the lanes empty and no party with an act, and ends at the end
/// of the file.
pub fn each_drain_ends_at_the_end()
    ensures quiet { (file : FileAt) (turns more : List Turn) (w last : WorldAt Program) →
        IsAccepted file → IsForwardRun file turns w →
        IsDrained (play_of file) (length file.parties) w more last →
        IsForwardRun file (turns ++ more) last
        × IsQuietAmong (play_of file) (length file.parties) last }
    ensures end { (file : FileAt) (turns more : List Turn) (w last : WorldAt Program) →
        IsAccepted file → IsForwardRun file turns w →
        IsDrained (play_of file) (length file.parties) w more last →
        IsRun file (acts_in (turns ++ more)) (end_of file)
        × IsOpenKept IsDone binds (length file.parties) last (plain_at (end_of file)) }
{}
