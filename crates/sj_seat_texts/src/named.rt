//! A file with the texts of a run.
ghost use Rattle.std.specs.Prelude.{IfOk};
ghost use Rattle.sj_lang.specs.FileView.{file_of};
ghost use Rattle.sj_seat_texts.specs.Named.{IsNamedBy};

use crate::Texts;
use crate::copies::{copied_parties, copied_protocols};
use sj_base::NoMemory;
use sj_lang::{File, Names};
use std::alloc::Global;

/// The same file, but that its texts are those of a run. The table of these is moved, the rest is
/// copied. Whoever prints a transcript or a log by this file names the texts that codes added, and the
/// file's own under their numbers.
pub fn named_file(alloc: Global, file: &File, texts: Texts) -> Result<File, NoMemory>
    ensures { IfOk result (λ f. IsNamedBy (file_of file.now) texts (file_of f)) }
{
    let words = Texts::of(alloc, &file.names.words)?.into_words();
    let texts = texts.into_words();
    let protocols = copied_protocols(alloc, &file.protocols)?;
    let parties = copied_parties(alloc, &file.parties)?;
    let connects = Vec::from_slice(alloc, &file.connects)?;
    Ok(File {
        names: Names { words, texts },
        protocols,
        parties,
        connects,
    })
}
