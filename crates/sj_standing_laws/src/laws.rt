//! Laws of a model of a server; nothing runs over one. Each law is a function that does nothing.
//!
//! - `what_stands_is_work_of_parties`: the logs and lanes at the server, at any moment.
//! - `what_stands_is_a_history`: the logs of a file's parties, joined.
ghost use Rattle.std.specs.Prelude.{◌≡◌, ℕ, List, [], length};
ghost use Rattle.sj_lang.specs.FileAt.{FileAt};
ghost use Rattle.sj_lang.specs.Place.{Place};
ghost use Rattle.sj_semantics.specs.Program.{Program};
ghost use Rattle.sj_rules.specs.Node.{Play};
ghost use Rattle.sj_rules.specs.History.{IsHistory};
ghost use Rattle.sj_rules.specs.Log.{IsJoined, LineAt, logs_below};
ghost use Rattle.sj_rules.specs.Party.{play_of};
ghost use Rattle.sj_rules.specs.Start.{core_start};
ghost use Rattle.sj_rules.specs.World.{WorldAt};
ghost use Rattle.sj_rules.specs.Joined.{PartiesWork, WorkerAt};
ghost use Rattle.sj_standing_laws.specs.Standing.{Grown, Standing, log_in, nothing};

/// Processes add batches and frames in any order. What stands is always what the parties did over the
/// lanes between them, and the logs are theirs.
pub fn what_stands_is_work_of_parties()
    ensures { (play : Play Place Program) (pick : ℕ → ℕ → ℕ) (blank : Place) (n : ℕ)
        (start : WorldAt Place Program) (states : List (Standing Place)) (last : Standing Place) →
        Grown play pick blank n start states nothing last →
        ((p q : ℕ) → start.lanes p q ≡ []) →
        (workers : ℕ → WorkerAt Place Program) × PartiesWork play pick blank n start workers (λ p q. [])
        × ((p : ℕ) → (workers p).log ≡ log_in last p) }
{}

/// At any moment the logs of a file's parties can be joined (`joined`), and the joined lines are a
/// history of the file (`history`).
pub fn what_stands_is_a_history()
    ensures joined { (file : FileAt) (pick : ℕ → ℕ → ℕ) (blank : Place)
        (states : List (Standing Place)) (last : Standing Place) →
        Grown (play_of file) pick blank (length file.parties) (core_start file) states nothing last →
        (lines : List LineAt) × IsJoined (logs_below (log_in last) (length file.parties)) lines }
    ensures history { (file : FileAt) (pick : ℕ → ℕ → ℕ) (blank : Place)
        (states : List (Standing Place)) (last : Standing Place) (lines : List LineAt) →
        Grown (play_of file) pick blank (length file.parties) (core_start file) states nothing last →
        IsJoined (logs_below (log_in last) (length file.parties)) lines →
        (core : WorldAt Place Program) × IsHistory pick file lines core }
{}
