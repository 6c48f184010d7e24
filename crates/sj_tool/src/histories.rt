//! The history after a transcript.
ghost use Rattle.std.specs.Prelude.{◌≡◌, ◌++◌, OnOk, map};
ghost use Rattle.sj_lang.specs.FileView.{file_of};
ghost use Rattle.sj_print.specs.LogLine.{log_text};
ghost use Rattle.sj_end.specs.Lines.{line_at};
ghost use Rattle.sj_tool.specs.Runs.{log_part};

use sj_base::NoMemory;
use sj_end::Line;
use sj_lang::File;
use sj_print::{print_line, print_mark};

/// Puts the line of the log's version and then the lines after the text, where the log is asked
/// for.
pub(crate) fn put_log(
    text: &mut Vec<u8>,
    file: &File,
    lines: &[Line],
    log: bool,
) -> Result<(), NoMemory>
    ensures { OnOk result (text.new.items
        ≡ text.old.items ++ log_part log (file_of file.now) (map line_at lines.now)) }
{
    if !log {
        return Ok(());
    }
    print_mark(text, lines)?;
    put_lines(text, file, lines)
}

fn put_lines(text: &mut Vec<u8>, file: &File, lines: &[Line]) -> Result<(), NoMemory>
    ensures { OnOk result (text.new.items
        ≡ text.old.items ++ log_text (file_of file.now) (map line_at lines.now)) }
{
    for line in lines {
        print_line(text, file, line)?;
    }
    Ok(())
}
