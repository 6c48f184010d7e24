//! A history, put as a log.
ghost use Rattle.std.specs.Prelude.{◌≡◌, ◌++◌, OnErr, OnOk, map};
ghost use Rattle.sj_end.specs.Lines.{line_at};
ghost use Rattle.sj_lang.specs.FileView.{file_of};
ghost use Rattle.sj_print.specs.LogLine.{log_text};
ghost use Rattle.sj_seat_replay.specs.Histories.{history_text};
ghost use Rattle.sj_seats.specs.Seated.{history_of};
ghost use Rattle.sj_text.specs.Cut.{IsCutShort};

use sj_base::NoMemory;
use sj_end::Line;
use sj_lang::File;
use sj_print::{print_line, print_mark};
use sj_seats::SeatedWorld;

// The lines, one after the other.
fn put_lines(text: &mut Vec<u8>, file: &File, lines: &[Line]) -> Result<(), NoMemory>
    ensures all { OnOk result (text.new.items
        ≡ text.old.items ++ log_text (file_of file.now) (map line_at lines.now)) }
    ensures part { OnErr result (IsCutShort text.old.items
        (log_text (file_of file.now) (map line_at lines.now)) text.new.items) }
{
    for line in lines {
        print_line(text, file, line)?;
    }
    Ok(())
}

/// Puts the history of the world after the text: the line `%%log`, or `%%log2` where a session was
/// opened, and then a line for each event. So the file, followed by it, is the source of a replay.
/// Out of memory, it leaves a prefix of that after the text.
#[tactic(auto, using(sj_text::proofs::CutLemmas::cuts))]
pub fn put_history(text: &mut Vec<u8>, file: &File, world: &SeatedWorld) -> Result<(), NoMemory>
    ensures all { OnOk result (text.new.items
        ≡ text.old.items ++ history_text (file_of file.now) (history_of world.now)) }
    ensures part { OnErr result (IsCutShort text.old.items
        (history_text (file_of file.now) (history_of world.now)) text.new.items) }
{
    print_mark(text, world.history())?;
    put_lines(text, file, world.history())
}
