//! Laws of what is said of a run of a file; each is the one clause of a function that does nothing.
//!
//! - `the_history_of_a_run_is_legible`, `the_log_of_a_run_is_read_again`: a history can be written in
//!   lines, and these are read again.
//! - `a_file_and_its_log_are_parted_there`: a replay finds them after the file.
//! - `a_newline_behind_a_file_changes_nothing`: which may need one to consist of whole lines.

ghost use Rattle.std.specs.Prelude.{List, ℕ, ◌≤◌, ◌++◌, codes, length};
ghost use Rattle.sj_acceptance.specs.Accepted.{IsAccepted};
ghost use Rattle.sj_grammar.specs.Files.{IsFile};
ghost use Rattle.sj_lang.specs.FileAt.{FileAt};
ghost use Rattle.sj_lang.specs.Limits.{file_limit};
ghost use Rattle.sj_lang.specs.Place.{Place};
ghost use Rattle.sj_log.specs.Legible.{AreLegible};
ghost use Rattle.sj_log.specs.LogText.{SpellsLog};
ghost use Rattle.sj_log.specs.Parts.{AreLines, IsParted, IsVersion, mark_of};
ghost use Rattle.sj_print.specs.LogLine.{log_text};
ghost use Rattle.sj_print.specs.Version.{version_of};
ghost use Rattle.sj_rules.specs.History.{IsHistory};
ghost use Rattle.sj_rules.specs.Log.{LineAt};
ghost use Rattle.sj_rules.specs.Rows.{IsPick};
ghost use Rattle.sj_rules.specs.World.{WorldAt};
ghost use Rattle.sj_semantics.specs.Program.{Program};

/// Each history of the core of an accepted file, which a text of a file's length stands for, is
/// legible. Its numbers are within the format's bounds, and its parties, labels and texts are names
/// of the file.
pub fn the_history_of_a_run_is_legible()
    ensures { (text : List ℕ) (file : FileAt) (pick : ℕ → ℕ → ℕ) (history : List LineAt)
        (core : WorldAt Place Program) → length text ≤ file_limit → IsFile text file →
        IsAccepted file → IsPick pick → IsHistory pick file history core →
        AreLegible file history }
{}

/// So the text of its log is a log of its version and of each later one, and of no other lines.
pub fn the_log_of_a_run_is_read_again()
    ensures { (text : List ℕ) (file : FileAt) (pick : ℕ → ℕ → ℕ) (history : List LineAt)
        (core : WorldAt Place Program) (version : ℕ) → length text ≤ file_limit →
        IsFile text file → IsAccepted file → IsPick pick → IsHistory pick file history core →
        version_of history ≤ version →
        SpellsLog version file (log_text file history) history }
{}

/// A text of a file that consists of whole lines, with the line of a version and a log after it, is
/// split there, whatever the log is. No line of a file is `%%log` or `%%log2`.
pub fn a_file_and_its_log_are_parted_there()
    ensures { (text log : List ℕ) (file : FileAt) (version : ℕ) → IsFile text file →
        AreLines text → IsVersion version →
        IsParted (text ++ (mark_of version ++ log)) text version log }
{}

/// A text that stands for a file stands for it with a newline more, too.
pub fn a_newline_behind_a_file_changes_nothing()
    ensures { (text : List ℕ) (file : FileAt) → IsFile text file →
        IsFile (text ++ codes "\n") file }
{}
