//! Laws of the grammar of files; each is the one clause of a function that does nothing.
//!
//! - `each_text_is_read`: a text stands for a file, or it has a first fault.
//! - `one_fault_a_file`: a text has one first fault as a file.

ghost use Rattle.std.specs.Prelude.{◌≡◌, ℕ, List, [], ◌⊎◌};
ghost use Rattle.sj_grammar.specs.FileDues.{file_due, file_layer};
ghost use Rattle.sj_grammar.specs.Faults.{Stuck};
ghost use Rattle.sj_grammar.specs.Files.{IsFile};
ghost use Rattle.sj_lang.specs.Limits.{limits};
ghost use Rattle.sj_grammar.specs.Positions.{start};
ghost use Rattle.sj_grammar.specs.declared.tokens.Fault.{Fault};
ghost use Rattle.sj_lang.specs.FileAt.{FileAt};

/// Whatever bytes a text has, it stands for a file, or it has a first fault.
pub fn each_text_is_read()
    ensures { (bytes : List ℕ) → ((f : FileAt) × IsFile bytes f)
        ⊎ ((g : Fault) × Stuck file_layer limits 0 (start bytes [] []) file_due g) }
{}

/// A text has one first fault, as a file.
pub fn one_fault_a_file()
    ensures { (bytes : List ℕ) (f g : Fault)
        → Stuck file_layer limits 0 (start bytes [] []) file_due f
        → Stuck file_layer limits 0 (start bytes [] []) file_due g → f ≡ g }
{}
