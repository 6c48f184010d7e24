//! Laws of what a history, and the core world to which it leads, report of the end of the file.
//! Each is one clause of a function that does nothing.
//!
//! - `a_quiet_history_tells_its_end`: what each end sent, who took it, and the number of messages.
//! - `a_quiet_core_stands_as_its_nodes`: programs, how parties stand, and where nothing was opened.

ghost use Rattle.std.specs.Prelude.{◌≡◌, ◌<◌, [], ℕ, List, Some, length, map, slice_get, unwrap_or};
ghost use Rattle.sj_acceptance.specs.Accepted.{IsAccepted};
ghost use Rattle.sj_base.specs.declared.EndId.{EndId};
ghost use Rattle.sj_lang.specs.FileAt.{FileAt};
ghost use Rattle.sj_lang.specs.Place.{Place};
ghost use Rattle.sj_rules.specs.History.{IsHistory, IsQuietAmong};
ghost use Rattle.sj_rules.specs.Log.{LineAt};
ghost use Rattle.sj_rules.specs.Party.{nobody, play_of};
ghost use Rattle.sj_rules.specs.Rows.{IsPick};
ghost use Rattle.sj_rules.specs.World.{WorldAt};
ghost use Rattle.sj_rules_laws.specs.TiedNotes.{sent_told, taken_told, told_in};
ghost use Rattle.sj_semantics.specs.Ends.{end_at};
ghost use Rattle.sj_semantics.specs.Program.{Program};
ghost use Rattle.sj_semantics.specs.Run.{end_of};
ghost use Rattle.sj_semantics.specs.State.{opened_in, state_of};
ghost use Rattle.sj_semantics.specs.Wants.{want_of};
ghost use Rattle.sj_semantics.specs.declared.Want.TheVariants.{Ended};
ghost use Rattle.sj_told.specs.Still.{still_state};
ghost use Rattle.sj_told.specs.Counts.{messages_sent, sent_count};

/// A history that leaves nothing to do reports the end of the file. The Sent notes of each end are
/// what it sent there, with the senders. The Took notes report who took on it. There are as many
/// Sent notes as messages.
pub fn a_quiet_history_tells_its_end()
    ensures sent { (file : FileAt) (pick : ℕ → ℕ → ℕ) (lines : List LineAt)
        (core : WorldAt Place Program) (e : EndId) → IsAccepted file → IsPick pick →
        IsHistory pick file lines core →
        IsQuietAmong (play_of file) (length file.parties) core →
        (end_at (end_of file).sessions e).sent ≡ told_in (sent_told e) lines }
    ensures takers { (file : FileAt) (pick : ℕ → ℕ → ℕ) (lines : List LineAt)
        (core : WorldAt Place Program) (e : EndId) → IsAccepted file → IsPick pick →
        IsHistory pick file lines core →
        IsQuietAmong (play_of file) (length file.parties) core →
        (end_at (end_of file).sessions e).takers
        ≡ map (λ x. x.by) (told_in (taken_told e) lines) }
    ensures count { (file : FileAt) (pick : ℕ → ℕ → ℕ) (lines : List LineAt)
        (core : WorldAt Place Program) → IsAccepted file → IsPick pick →
        IsHistory pick file lines core →
        IsQuietAmong (play_of file) (length file.parties) core →
        messages_sent (end_of file) ≡ sent_count lines }
{}

/// In the core world to which it leads each node has the program that its party has at the end of
/// the file. How the party stands depends on the program's steps and its next one alone. Where no
/// node has opened a session, none was opened.
pub fn a_quiet_core_stands_as_its_nodes()
    ensures programs { (file : FileAt) (pick : ℕ → ℕ → ℕ) (lines : List LineAt)
        (core : WorldAt Place Program) (p : ℕ) → IsAccepted file → IsPick pick →
        IsHistory pick file lines core →
        IsQuietAmong (play_of file) (length file.parties) core →
        (core.nodes p).program ≡ unwrap_or (slice_get (end_of file).parties p) nobody }
    ensures states { (file : FileAt) (p : ℕ) (g : Program) →
        slice_get (end_of file).parties p ≡ Some g →
        state_of (end_of file) p ≡ still_state g.steps (unwrap_or (want_of g) Ended) }
    ensures opened { (file : FileAt) (pick : ℕ → ℕ → ℕ) (lines : List LineAt)
        (core : WorldAt Place Program) → IsAccepted file → IsPick pick →
        IsHistory pick file lines core →
        IsQuietAmong (play_of file) (length file.parties) core →
        ((p : ℕ) → p < length file.parties → (core.nodes p).requests ≡ 0) →
        opened_in (end_of file) ≡ [] }
{}
