//! How many messages lines report.
ghost use Rattle.std.specs.Prelude.{◌≡◌, map};
ghost use Rattle.sj_end.specs.Lines.{line_at, note_seen};
ghost use Rattle.sj_told.specs.Counts.{is_sent, sent_count};

use sj_end::{Line, Note};

/// How many messages were sent, as the lines report.
pub fn messages_told(lines: &[Line]) -> usize
    ensures { result ≡ sent_count (map line_at lines.now) }
{
    let mut count = 0usize;
    for line in lines {
        count += one_if_sent(&line.entry.note);
    }
    count
}

fn one_if_sent(note: &Note) -> usize
    ensures { result ≡ is_sent (note_seen note.now) }
{
    match note {
        Note::Sent { .. } => 1,
        _ => 0,
    }
}
