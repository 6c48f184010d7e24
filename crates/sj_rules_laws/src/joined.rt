//! Laws over the joined logs of the parties of a file, and over histories; each is the one clause
//! of a function that does nothing, or one of several.
//!
//! - `joined_logs_are_a_core_run`: what running parties report is a core run, in the order of its
//!   lines.
//! - `a_history_is_one_run`: a history fixes its run, and replaying gives exactly its lines.
//! - `no_worker_is_unfit`: no worker's node refuses a frame or an act as unfit.

ghost use Rattle.std.specs.Prelude.{◌≡◌, ℕ, ◌<◌, List, [], ◌∷◌, map, None, Option, Some, length, slice_get};
ghost use Rattle.sj_acceptance.specs.Accepted.{IsAccepted};
ghost use Rattle.sj_base.specs.declared.EndId.{EndId};
ghost use Rattle.sj_base.specs.declared.Msg.{Msg};
ghost use Rattle.sj_lang.specs.FileAt.{FileAt};
ghost use Rattle.sj_lang.specs.Place.{Place, done};
ghost use Rattle.sj_rules.specs.Frames.{FrameAt};
ghost use Rattle.sj_rules.specs.Halts.{halt_of};
ghost use Rattle.sj_rules.specs.History.{IsCoreRun, IsHistory, IsMisfit, Replay, replay, turn_of};
ghost use Rattle.sj_rules.specs.Joined.{IsJoinedRun, PartiesWork, WorkerAt};
ghost use Rattle.sj_rules.specs.Limits.{limit_of_messages};
ghost use Rattle.sj_rules.specs.Log.{EntryAt, IsJoined, LineAt, logs_below};
ghost use Rattle.sj_rules.specs.Node.{NodeAt, Play, acts, arrives};
ghost use Rattle.sj_rules.specs.NodeRun.{frame_told};
ghost use Rattle.sj_rules.specs.Party.{play_of};
ghost use Rattle.sj_rules.specs.Plays.{IsPlayOf};
ghost use Rattle.sj_rules.specs.Binding.{NamesKnown};
ghost use Rattle.sj_rules.specs.Record.{Held, HeldAt};
ghost use Rattle.sj_rules.specs.Rows.{IsPick, Worked};
ghost use Rattle.sj_rules.specs.Start.{core_start};
ghost use Rattle.sj_rules.specs.World.{Turn, WorldAt};
ghost use Rattle.sj_semantics.specs.Program.{Program};

/// The logs of a file's parties can be joined, in one way only. The joined lines are a core run,
/// which ends in each worker's node, with what is left in the lanes. So they are where the parties
/// go by another play of the file.
pub fn joined_logs_are_a_core_run()
    ensures joined { (file : FileAt) (play : Play Place Program) (pick : ℕ → ℕ → ℕ)
        (blank : Place) (workers : ℕ → WorkerAt Place Program)
        (lost : ℕ → ℕ → List (FrameAt Place)) →
        PartiesWork play pick blank (length file.parties) (core_start file) workers lost →
        (lines : List LineAt)
        × IsJoined (logs_below (λ p. (workers p).log) (length file.parties)) lines }
    ensures one { (logs : ℕ → List EntryAt) (lines others : List LineAt) → IsJoined logs lines →
        IsJoined logs others → lines ≡ others }
    ensures run { (file : FileAt) (pick : ℕ → ℕ → ℕ) (blank : Place)
        (workers : ℕ → WorkerAt Place Program) (lost : ℕ → ℕ → List (FrameAt Place))
        (lines : List LineAt) → IsPick pick →
        PartiesWork (play_of file) pick blank (length file.parties) (core_start file)
        workers lost → IsJoined (logs_below (λ p. (workers p).log) (length file.parties)) lines →
        (core : WorldAt Place Program) × IsHistory pick file lines core
        × IsCoreRun file (map turn_of lines) core
        × IsJoinedRun (play_of file) pick blank (length file.parties)
        (core_start file) workers lost lines core }
    ensures own { (file : FileAt) → IsPlayOf file (play_of file) }
    ensures plays { (file : FileAt) (play : Play Place Program) (pick : ℕ → ℕ → ℕ)
        (blank : Place) (workers : ℕ → WorkerAt Place Program)
        (lost : ℕ → ℕ → List (FrameAt Place)) (lines : List LineAt) → IsAccepted file →
        IsPlayOf file play → IsPick pick →
        PartiesWork play pick blank (length file.parties) (core_start file) workers lost →
        IsJoined (logs_below (λ p. (workers p).log) (length file.parties)) lines →
        (core : WorldAt Place Program) × IsHistory pick file lines core
        × IsCoreRun file (map turn_of lines) core
        × IsJoinedRun (play_of file) pick blank (length file.parties)
        (core_start file) workers lost lines core }
{}

/// A history leads to one world, its events give exactly its lines again, and what is replayed is
/// a history. Two runs with one history are one, and no line of a history is a misfit.
pub fn a_history_is_one_run()
    ensures world { (file : FileAt) (pick : ℕ → ℕ → ℕ) (lines : List LineAt)
        (core other : WorldAt Place Program) → IsHistory pick file lines core →
        IsHistory pick file lines other → core ≡ other }
    ensures again { (file : FileAt) (pick : ℕ → ℕ → ℕ) (lines : List LineAt)
        (core : WorldAt Place Program) → IsHistory pick file lines core →
        replay (play_of file) pick (map turn_of lines) (core_start file)
        ≡ Some (record { lines = lines; world = core }) }
    ensures replayed { (file : FileAt) (pick : ℕ → ℕ → ℕ) (turns : List Turn)
        (r : Replay Place Program) →
        replay (play_of file) pick turns (core_start file) ≡ Some r →
        IsHistory pick file r.lines r.world × (map turn_of r.lines ≡ turns) }
    ensures runs { (file : FileAt) (pick : ℕ → ℕ → ℕ) (turns others : List Turn)
        (r s : Replay Place Program) →
        replay (play_of file) pick turns (core_start file) ≡ Some r →
        replay (play_of file) pick others (core_start file) ≡ Some s →
        r.lines ≡ s.lines → (turns ≡ others) × (r.world ≡ s.world) }
    ensures fits { (file : FileAt) (pick : ℕ → ℕ → ℕ) (lines : List LineAt)
        (core : WorldAt Place Program) (number : ℕ) (logged : LineAt) (other : Option LineAt) →
        IsHistory pick file lines core →
        IsMisfit (play_of file) pick (core_start file) lines number logged other → ⊥ }
{}

/// A frame that a worker popped and lost fits its row at the worker's node, the limits too: so the
/// node didn't refuse it as unfit. The node acts where no cause keeps it from it. Its ends have
/// sent and taken fewer than 1,000,000 messages. What is untaken there names sessions and parties
/// of the file.
pub fn no_worker_is_unfit()
    ensures frame { (file : FileAt) (play : Play Place Program) (pick : ℕ → ℕ → ℕ)
        (blank : Place) (workers : ℕ → WorkerAt Place Program) (lost : ℕ → ℕ → List (FrameAt Place)) (p q : ℕ)
        (f : FrameAt Place) → IsAccepted file → IsPlayOf file play →
        IsPick pick →
        PartiesWork play pick blank (length file.parties) (core_start file) workers lost →
        q < length file.parties → lost q p ≡ frame_told blank f ∷ [] →
        (worked : Worked Place (NodeAt Place Program))
        × (arrives done (length file.parties) pick (workers q).node p f ≡ Some worked) }
    ensures act { (file : FileAt) (play : Play Place Program) (pick : ℕ → ℕ → ℕ)
        (blank : Place) (workers : ℕ → WorkerAt Place Program) (lost : ℕ → ℕ → List (FrameAt Place)) (q : ℕ) →
        IsAccepted file → IsPlayOf file play →
        IsPick pick →
        PartiesWork play pick blank (length file.parties) (core_start file) workers lost →
        q < length file.parties →
        halt_of play (workers q).node ≡ None →
        (worked : Worked Place (NodeAt Place Program))
        × (acts play q (workers q).node ≡ Some worked) }
    ensures counts { (file : FileAt) (play : Play Place Program) (pick : ℕ → ℕ → ℕ)
        (blank : Place) (workers : ℕ → WorkerAt Place Program) (lost : ℕ → ℕ → List (FrameAt Place)) (q : ℕ)
        (e : EndId) (h : HeldAt Place) → IsAccepted file → IsPlayOf file play →
        IsPick pick →
        PartiesWork play pick blank (length file.parties) (core_start file) workers lost →
        q < length file.parties → e.side < 2 →
        (workers q).node.main e ≡ Some (Held h) →
        (h.end.sent < limit_of_messages) × (h.end.taken < limit_of_messages) }
    ensures names { (file : FileAt) (play : Play Place Program) (pick : ℕ → ℕ → ℕ)
        (blank : Place) (workers : ℕ → WorkerAt Place Program) (lost : ℕ → ℕ → List (FrameAt Place)) (q : ℕ)
        (e : EndId) (h : HeldAt Place) (j : ℕ) (m : Msg) → IsAccepted file → IsPlayOf file play →
        IsPick pick →
        PartiesWork play pick blank (length file.parties) (core_start file) workers lost →
        q < length file.parties → e.side < 2 →
        (workers q).node.main e ≡ Some (Held h) → slice_get h.untaken j ≡ Some m →
        NamesKnown (length file.parties) (length file.connects) m }
{}
