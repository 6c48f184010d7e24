//! Laws over files and core worlds; each is the one clause of a function that does nothing.
//!
//! - `the_rules_see_each_act`, `plain_worlds_are_lawful`: the plain world as the rules see it.
//! - `the_start_stands_for_the_plain_one`, `kept_worlds_stand_for_plain_ones`,
//!   `nothing_is_ever_unfit`, `a_quiet_world_is_settled`: core worlds that keep the invariant.
//! - `opens_come_from_parties`: who opens sessions.
//! - `a_drain_is_one_list_of_events`: what a drain does.

ghost use Rattle.std.specs.Prelude.{◌≡◌, ◌<◌, ℕ, List, None, Some, length, option_map};
ghost use Rattle.sj_acceptance.specs.Accepted.{IsAccepted};
ghost use Rattle.sj_lang.specs.FileAt.{FileAt};
ghost use Rattle.sj_lang.specs.Place.{Place, done};
ghost use Rattle.sj_rules.specs.Drain.{IsDrained};
ghost use Rattle.sj_rules.specs.Frames.{FrameAt};
ghost use Rattle.sj_rules.specs.Halts.{halt_of};
ghost use Rattle.sj_rules.specs.History.{IsQuiescent, IsQuietAmong};
ghost use Rattle.sj_rules.specs.Reading.{IsOpenKept};
ghost use Rattle.sj_rules.specs.Moves.{plain_act};
ghost use Rattle.sj_rules.specs.Node.{NodeAt, acts, arrives};
ghost use Rattle.sj_rules.specs.Party.{IsDone, binds, play_of};
ghost use Rattle.sj_rules.specs.Plain.{plain_at};
ghost use Rattle.sj_rules.specs.Premises.{IsLawful};
ghost use Rattle.sj_rules.specs.Record.{Open};
ghost use Rattle.sj_rules.specs.Rows.{Worked};
ghost use Rattle.sj_rules.specs.StandsFor.{StandsFor};
ghost use Rattle.sj_rules.specs.Start.{core_start};
ghost use Rattle.sj_rules.specs.World.{Turn, WorldAt};
ghost use Rattle.sj_semantics.specs.Program.{Program};
ghost use Rattle.sj_semantics.specs.Run.{IsRun};
ghost use Rattle.sj_semantics.specs.World.{start_of, World, act_of};
ghost use Rattle.sj_semantics.specs.State.{IsSettled};

/// In every run the rules see the act of a party that the plain world does.
pub fn the_rules_see_each_act()
    ensures { (file : FileAt) (ps : List ℕ) (w : World) (p : ℕ) → IsAccepted file →
        IsRun file ps w →
        plain_act (play_of file) (plain_at w) p ≡ option_map plain_at (act_of w p) }
{}

/// In every run each next step and each session fit, as the rules ask for.
pub fn plain_worlds_are_lawful()
    ensures { (file : FileAt) (ps : List ℕ) (w : World) → IsAccepted file → IsRun file ps w →
        IsLawful IsDone (play_of file) binds (length file.parties) (plain_at w) }
{}

/// The core world before any event stands for the plain world before any act.
pub fn the_start_stands_for_the_plain_one()
    ensures { (file : FileAt) → IsAccepted file →
        IsOpenKept IsDone binds done (core_start file) (plain_at (start_of file)) }
{}

/// A core world that keeps the invariant stands for its plain world: each end agrees with the
/// plain one or is gone, and each direction flows or is owed.
pub fn kept_worlds_stand_for_plain_ones()
    ensures { (w : World) (core : WorldAt Place Program) → IsOpenKept IsDone binds done core (plain_at w) →
        StandsFor IsDone done core (plain_at w) }
{}

/// A party of such a world acts where no cause keeps it from it.
pub fn nothing_is_ever_unfit()
    ensures { (file : FileAt) (ps : List ℕ) (w : World) (core : WorldAt Place Program) (p : ℕ) →
        IsAccepted file → IsRun file ps w → IsOpenKept IsDone binds done core (plain_at w) →
        halt_of (play_of file) (core.nodes p) ≡ None →
        (worked : Worked Place (NodeAt Place Program))
        × (acts (play_of file) p (core.nodes p) ≡ Some worked) }
{}

/// A core world with nothing in its lanes, in which no party can act, stands for a settled world.
pub fn a_quiet_world_is_settled()
    ensures { (file : FileAt) (ps : List ℕ) (w : World) (core : WorldAt Place Program) →
        IsAccepted file → IsRun file ps w → IsOpenKept IsDone binds done core (plain_at w) →
        IsQuiescent (play_of file) core → IsSettled w }
{}

/// An Open fits only where it comes from one of the parties, whatever the node.
pub fn opens_come_from_parties()
    ensures { (blank : Place) (parties : ℕ) (pick : ℕ → ℕ → ℕ) (n : NodeAt Place Program)
        (origin : ℕ) (f : FrameAt Place) (sess : ℕ) (worked : Worked Place (NodeAt Place Program)) →
        f.body ≡ Open sess → arrives blank parties pick n origin f ≡ Some worked →
        origin < parties }
{}

/// The events of a drain are determined, and leave its parties with nothing to do.
pub fn a_drain_is_one_list_of_events()
    ensures one { (file : FileAt) (pick : ℕ → ℕ → ℕ) (n : ℕ)
        (core first second : WorldAt Place Program) (ts us : List Turn) →
        IsDrained (play_of file) pick n core ts first →
        IsDrained (play_of file) pick n core us second →
        (ts ≡ us) × (first ≡ second) }
    ensures quiet { (file : FileAt) (pick : ℕ → ℕ → ℕ) (n : ℕ)
        (core last : WorldAt Place Program) (ts : List Turn) →
        IsDrained (play_of file) pick n core ts last →
        IsQuietAmong (play_of file) n last }
{}
