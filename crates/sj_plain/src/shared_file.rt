//! What a world keeps of its file: the accepted file itself, which all who keep it share.
ghost use Rattle.std.specs.Prelude.{◌≡◌, IfOk};
ghost use Rattle.sj_acceptance.specs.Accepted.{IsAccepted};
ghost use Rattle.sj_check.specs.Held.{file_in as held};
ghost use Rattle.sj_lang.specs.FileView.{file_of};

use sj_base::NoMemory;
use sj_check::Accepted;
use sj_lang::File;
use std::marker::Model;
use std::sync::Arc;

/// An accepted file, in common with all who keep it. No copy of it is made.
#[derive(Drop)]
pub struct SharedFile {
    file: Arc<File>,
}

impl Model for SharedFile {
    ghost use Rattle.sj_lang.specs.declared.file.File.{File};
    ghost use Rattle.sj_lang.specs.contracts.file.File as f;

    ghost Value = { File };

    ghost coded = { f.the_row.coded };

    ghost use Rattle.std.specs.Arc.{arc_value};

    ghost view = { λ k. arc_value k.file };
}

impl SharedFile {
    /// The accepted file. It is refused where 2^63 - 1 keep it already.
    pub fn of(accepted: &Accepted) -> Result<SharedFile, NoMemory>
        ensures value { IfOk result (λ k. k ≡ held accepted.now) }
        ensures accepted { IfOk result (λ k. IsAccepted (file_of k)) }
    {
        let file = accepted.shared()?;
        Ok(SharedFile { file })
    }
}
