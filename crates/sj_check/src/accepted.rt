//! Accepted files.
ghost use Rattle.std.specs.Prelude.{◌≡◌, ℕ, None, IfOk};
ghost use Rattle.std.specs.Arc.{arc_value};
ghost use Rattle.std.specs.Coded.{Coded-set};
ghost use Rattle.sj_lang.specs.FileAt.{body_named};
ghost use Rattle.sj_lang.specs.FileView.{file_of};
ghost use Rattle.sj_lang.specs.Limits.{IsWithin, limits};
ghost use Rattle.sj_lang.specs.PlaceCode.{coded_place};
ghost use Rattle.sj_acceptance.specs.Faults.{first_fault};
ghost use Rattle.sj_acceptance.specs.FileTests.{tests_of};
ghost use Rattle.sj_table.specs.Spots.{start_in};

use sj_base::NoMemory;
use sj_lang::File;
use sj_table::Table;
use std::sync::Arc;

/// A file that is accepted, within the limits, with the table of its protocols. The file is shared
/// by all who keep it, in any threads.
#[derive(Drop)]
pub struct Accepted {
    pub(crate) file: Arc<File>,
    pub(crate) table: Table,
    ghost starts: { (p : ℕ) → start_in table p ≡ body_named (file_of (arc_value file)).protocols p } by { Prim.hlevel (Coded-set, coded_place) },
    ghost within: { IsWithin limits (file_of (arc_value file)) },
    ghost accepted: { first_fault (tests_of (file_of (arc_value file))) ≡ None },
}

impl Accepted {
    ghost use Rattle.sj_acceptance.specs.Accepted.{IsAccepted};
    ghost use Rattle.sj_check.specs.Held.{file_in};

    /// The file, which is accepted.
    pub fn file(&self) -> &File
        ensures value { result.now ≡ file_in self.now }
        ensures accepted { IsAccepted (file_of result.now) }
    {
        &self.file
    }

    /// The same file, for those who keep it. It is refused where there are 2^63 - 1 such already.
    pub fn shared(&self) -> Result<Arc<File>, NoMemory>
        ensures value { IfOk result (λ f. arc_value f ≡ file_in self.now) }
        ensures accepted { IfOk result (λ f. IsAccepted (file_of (arc_value f))) }
    {
        let file = Arc::try_clone(&self.file)?;
        Ok(file)
    }

    /// The table of the file's protocols. Its copies have their nodes in common.
    pub fn table(&self) -> &Table
        ensures { (p : ℕ) → start_in result.now p ≡ body_named (file_of (file_in self.now)).protocols p }
    {
        &self.table
    }
}
