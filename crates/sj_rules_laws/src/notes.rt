//! Laws of what the lines of a history say of the plain run of its acts; each is one clause of a
//! function that does nothing.
//!
//! - `a_history_is_tied_to_its_plain_run`: each act's note is that of the plain step.
//! - `a_history_tells_what_was_passed`: what was sent on each end, what was taken, and by whom.

ghost use Rattle.std.specs.Prelude.{◌≡◌, ℕ, List, map};
ghost use Rattle.sj_acceptance.specs.Accepted.{IsAccepted};
ghost use Rattle.sj_base.specs.declared.EndId.{EndId};
ghost use Rattle.sj_lang.specs.FileAt.{FileAt};
ghost use Rattle.sj_lang.specs.Place.{Place};
ghost use Rattle.sj_rules.specs.Events.{acts_in};
ghost use Rattle.sj_rules.specs.History.{IsHistory, turn_of};
ghost use Rattle.sj_rules.specs.Log.{LineAt};
ghost use Rattle.sj_rules.specs.Rows.{IsPick};
ghost use Rattle.sj_rules.specs.World.{WorldAt};
ghost use Rattle.sj_rules_laws.specs.TiedNotes.{AreTied, sent_told, taken_told, told_in};
ghost use Rattle.sj_semantics.specs.Acts.{acts_from, sent_on, taken_on};
ghost use Rattle.sj_semantics.specs.Program.{Program};
ghost use Rattle.sj_semantics.specs.World.{start_of};

/// In a history the note of each act is that of the step that its party does in the plain run of
/// the acts. It says what the step sends or takes and on which end, which end it closes, and which
/// session it opens or accepts. A delivery's note names a frame.
pub fn a_history_is_tied_to_its_plain_run()
    ensures { (file : FileAt) (pick : ℕ → ℕ → ℕ) (lines : List LineAt)
        (core : WorldAt Place Program) → IsAccepted file → IsPick pick →
        IsHistory pick file lines core → AreTied (start_of file) lines }
{}

/// So the Sent notes of an end, in order and each with its line's party, are what the plain run
/// sends on it. Likewise the Took notes are what it takes on it.
pub fn a_history_tells_what_was_passed()
    ensures sent { (file : FileAt) (pick : ℕ → ℕ → ℕ) (lines : List LineAt)
        (core : WorldAt Place Program) (e : EndId) → IsAccepted file → IsPick pick →
        IsHistory pick file lines core →
        told_in (sent_told e) lines
        ≡ sent_on e (acts_from (start_of file) (acts_in (map turn_of lines))) }
    ensures taken { (file : FileAt) (pick : ℕ → ℕ → ℕ) (lines : List LineAt)
        (core : WorldAt Place Program) (e : EndId) → IsAccepted file → IsPick pick →
        IsHistory pick file lines core →
        told_in (taken_told e) lines
        ≡ taken_on e (acts_from (start_of file) (acts_in (map turn_of lines))) }
{}
