//! Laws: a printed log is read as its lines (`printed_lines_are_read`), and a source is split one way
//! (`sources_are_parted_in_one_way`).
ghost use Rattle.std.specs.Prelude.{List, ℕ, ◌≡◌, ◌≤◌};
ghost use Rattle.sj_lang.specs.FileAt.{FileAt};
ghost use Rattle.sj_rules.specs.Log.{LineAt};
ghost use Rattle.sj_print.specs.LogLine.{log_text};
ghost use Rattle.sj_print.specs.Version.{version_of};
ghost use Rattle.sj_log.specs.Parts.{IsParted};
ghost use Rattle.sj_log.specs.LogText.{SpellsLog};
ghost use Rattle.sj_log.specs.Legible.{AreLegible};

/// What `print_line` prints of lines, one after the other, is read as those lines, in their version
/// and in each later one. Their numbers must be within the format's bounds, and their names be
/// names of the file.
pub fn printed_lines_are_read()
    ensures { (version : ℕ) (file : FileAt) (lines : List LineAt) → version_of lines ≤ version
        → AreLegible file lines → SpellsLog version file (log_text file lines) lines }
{}

/// A source has one text, one version and one log at most.
pub fn sources_are_parted_in_one_way()
    ensures { (source text : List ℕ) (version : ℕ) (log : List ℕ) → IsParted source text version log
        → (other : List ℕ) (v : ℕ) (rest : List ℕ) → IsParted source other v rest
        → (text ≡ other) × ((version ≡ v) × (log ≡ rest)) }
{}
