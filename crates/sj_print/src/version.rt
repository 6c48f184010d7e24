//! The line that stands before a log.
//!
//! Out of memory, it leaves a prefix of what was to be put after the text.
#![tactic(auto, using(sj_text::proofs::CutLemmas::cuts, crate::proofs::VersionLemmas::any_map))]

ghost use Rattle.std.specs.Prelude.{◌≡◌, ◌++◌, OnOk, OnErr, map};
ghost use Rattle.std.specs.List.{list_any};
ghost use Rattle.sj_text.specs.Cut.{IsCutShort};
ghost use Rattle.sj_print.specs.Version.{is_opening, mark_of, version_of};
ghost use Rattle.sj_end.specs.Lines.{line_at, note_seen};

use sj_base::NoMemory;
use sj_end::{Line, Note};
use sj_text::put;

fn is_opening(note: &Note) -> bool
    ensures { result ≡ is_opening (note_seen note.now) }
{
    match note {
        Note::Request { .. } => true,
        Note::Accept { .. } => true,
        Note::Open { .. } => true,
        _ => false,
    }
}

// Whether a session is opened in one of the lines.
fn have_openings(lines: &[Line]) -> bool
    ensures { result ≡ list_any (λ l. is_opening (note_seen l.entry.note)) lines.now }
{
    lines.iter().any(|l| is_opening(&l.entry.note))
}

/// Puts the line that stands before a log of these lines after the text: `%%log2` where a session
/// is opened or accepted in them, else `%%log`. Out of memory, it leaves a prefix of the line.
pub fn print_mark(text: &mut Vec<u8>, lines: &[Line]) -> Result<(), NoMemory>
    ensures ok { OnOk result (text.new.items
        ≡ text.old.items ++ mark_of (version_of (map line_at lines.now))) }
    ensures err { OnErr result (IsCutShort text.old.items
        (mark_of (version_of (map line_at lines.now))) text.new.items) }
{
    if have_openings(lines) {
        put(text, b"%%log2\n")
    } else {
        put(text, b"%%log\n")
    }
}
