//! The counts of a file.
ghost use Rattle.std.specs.Prelude.{◌≡◌, IfOk};
ghost use Rattle.sj_lang.specs.FileView.{file_of};
ghost use Rattle.sj_tool.specs.Texts.{counts_of};

use sj_base::NoMemory;
use sj_lang::File;
use sj_text::{put, put_number};
use std::alloc::Global;

/// How many parties and sessions an accepted file has.
pub(crate) fn counts_text(alloc: Global, file: &File) -> Result<Vec<u8>, NoMemory>
    ensures { IfOk result (λ text. text.items ≡ counts_of (file_of file.now)) }
{
    let mut text = Vec::new(alloc);
    put(&mut text, b"accepted parties ")?;
    put_number(&mut text, file.parties.len() as u64)?;
    put(&mut text, b" sessions ")?;
    put_number(&mut text, file.connects.len() as u64)?;
    put(&mut text, b"\n")?;
    Ok(text)
}
