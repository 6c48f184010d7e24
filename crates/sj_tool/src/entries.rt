//! What is said of an entry that isn't the one that is due.
ghost use Rattle.std.specs.Prelude.{◌≡◌, ◌++◌, OnOk, IfOk, option_map};
ghost use Rattle.sj_end.specs.Lines.{line_at};
ghost use Rattle.sj_lang.specs.FileView.{file_of};
ghost use Rattle.sj_tool.specs.Entries.{due_text, entry_line, entry_text};

use sj_base::NoMemory;
use sj_end::{Line, Misfit};
use sj_lang::File;
use sj_print::print_line;
use sj_text::{put, put_number};
use std::alloc::Global;

/// After the head the entry's number, the entry itself, and the one that was due in its place.
pub(crate) fn told_entry(
    alloc: Global,
    head: &[u8],
    file: &File,
    misfit: &Misfit,
) -> Result<Vec<u8>, NoMemory>
    ensures { IfOk result (λ text. text.items ≡ entry_line head.now (file_of file.now) misfit.now.number
        (line_at misfit.now.logged) (option_map line_at misfit.now.due)) }
{
    let mut text = Vec::new(alloc);
    put(&mut text, head)?;
    put_number(&mut text, misfit.number)?;
    put(&mut text, b" logged ")?;
    put_entry(&mut text, file, &misfit.logged)?;
    put(&mut text, b" due ")?;
    put_due(&mut text, file, &misfit.due)?;
    put(&mut text, b"\n")?;
    Ok(text)
}

// The words of the entry that was due, or that there was none.
fn put_due(text: &mut Vec<u8>, file: &File, due: &Option<Line>) -> Result<(), NoMemory>
    ensures { OnOk result (text.new.items ≡ text.old.items ++ due_text (file_of file.now) (option_map line_at due.now)) }
{
    match due {
        Some(line) => put_entry(text, file, line),
        None => put(text, b"none"),
    }
}

// The words of an entry, without the newline of its line.
fn put_entry(text: &mut Vec<u8>, file: &File, line: &Line) -> Result<(), NoMemory>
    ensures { OnOk result (text.new.items ≡ text.old.items ++ entry_text (file_of file.now) (line_at line.now)) }
{
    print_line(text, file, line)?;
    text.pop();
    Ok(())
}
