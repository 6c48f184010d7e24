//! Whether a file's parties and connections are a forest.
ghost use Rattle.std.specs.Prelude.{◌≡◌, ◌∷◌, ◌++◌, IfOk, [], codes, decimal, map};
ghost use Rattle.sj_check.specs.Held.{file_in as held};
ghost use Rattle.sj_lang.specs.FileView.{file_of};
ghost use Rattle.sj_semantics.specs.Lines.{line_of, name_of};
ghost use Rattle.sj_tool.specs.ForestTexts.{IsForestText, spaced_line};

use sj_base::NoMemory;
use sj_check::Accepted;
use sj_forest::{Shape, forest};
use sj_lang::File;
use sj_print::print_name;
use sj_text::{put, put_number};
use std::alloc::Global;

/// The line of the file's first request or accept; else the parties that are left, if there are
/// any.
pub(crate) fn forest_text(alloc: Global, accepted: &Accepted) -> Result<Vec<u8>, NoMemory>
    ensures { IfOk result (λ text. IsForestText (file_of (held accepted.now)) text.items) }
{
    match forest(alloc, accepted)? {
        Shape::Opens(line) => opens_text(alloc, line),
        Shape::Cycle(parties) => left_text(alloc, accepted.file(), &parties),
        Shape::Forest(_) => Ok(Vec::from_slice(alloc, b"forest yes\n")?),
    }
}

fn opens_text(alloc: Global, line: u32) -> Result<Vec<u8>, NoMemory>
    ensures { IfOk result (λ text. text.items
        ≡ line_of (codes "forest" ∷ codes "opens" ∷ decimal line ∷ [])) }
{
    let mut text = Vec::new(alloc);
    put(&mut text, b"forest opens ")?;
    put_number(&mut text, u64::from(line))?;
    put(&mut text, b"\n")?;
    Ok(text)
}

// The names of the parties of these numbers.
fn left_text(alloc: Global, file: &File, parties: &[u16]) -> Result<Vec<u8>, NoMemory>
    ensures { IfOk result (λ text. text.items ≡ codes "forest no"
        ++ spaced_line (map (name_of (file_of file.now)) parties.now)) }
{
    let mut text = Vec::new(alloc);
    put(&mut text, b"forest no")?;
    for party in parties {
        put(&mut text, b" ")?;
        print_name(&mut text, file, *party)?;
    }
    put(&mut text, b"\n")?;
    Ok(text)
}
