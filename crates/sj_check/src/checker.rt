//! The checker of a whole file.
ghost use Rattle.std.specs.Prelude.{◌≡◌, ◌≢◌, ℕ, None, IfOk, OnOk, IfErr};
ghost use Rattle.sj_lang.specs.FileAt.{body_named};
ghost use Rattle.sj_lang.specs.FileView.{file_of};
ghost use Rattle.sj_acceptance.specs.Accepted.{IsAccepted};
ghost use Rattle.sj_lang.specs.Limits.{IsWithin, limits};
ghost use Rattle.sj_acceptance.specs.Faults.{first_fault};
ghost use Rattle.sj_acceptance.specs.FileTests.{tests_of};
ghost use Rattle.sj_table.specs.Spots.{start_in};
ghost use Rattle.sj_check.specs.Held.{file_in};
ghost use Rattle.sj_check.specs.Told.{Tells};

use crate::files::walked;
use crate::{Accepted, CheckRefusal};
use sj_lang::File;
use sj_table::Table;
use std::alloc::Global;
use std::sync::Arc;

/// Accepts the file, or gives it back with its first fault.
pub fn check(alloc: Global, file: File) -> Result<Accepted, (File, CheckRefusal)>
    requires { IsWithin limits (file_of file) }

    ensures ok { IfOk result (λ a. file_in a ≡ file) }
    ensures accepted { OnOk result (IsAccepted (file_of file)) }

    ensures back { IfErr result (λ e. e.0 ≡ file) }
    ensures fault { IfErr result (λ e. Tells (first_fault (tests_of (file_of file))) e.1) }
    ensures refused { IfErr result (λ e. e.1 ≢ CheckRefusal.NoMemory → ¬ IsAccepted (file_of file)) }
{
    let table = match walked_over(alloc, &file) {
        Ok(table) => table,
        Err(refusal) => return Err((file, refusal)),
    };
    match Arc::new(alloc, file) {
        Ok(file) => Ok(Accepted { file, table }),
        Err(refused) => Err((refused.value, CheckRefusal::NoMemory)),
    }
}

/// The table of the file's protocols, where its tests are kept.
fn walked_over(alloc: Global, file: &File) -> Result<Table, CheckRefusal>
    requires { IsWithin limits (file_of file.now) }
    ensures ok { OnOk result (first_fault (tests_of (file_of file.now)) ≡ None) }
    ensures starts { IfOk result (λ t. (p : ℕ) → start_in t p ≡ body_named (file_of file.now).protocols p) }
    ensures fault { IfErr result (λ r. Tells (first_fault (tests_of (file_of file.now))) r) }
{
    let table = Table::compile(alloc, &file.protocols)?;
    let own = table.copied()?;
    match walked(alloc, file, own) {
        Ok(()) => Ok(table),
        Err(refusal) => Err(refusal),
    }
}
