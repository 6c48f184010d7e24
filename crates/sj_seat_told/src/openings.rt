//! The lines of sessions that were opened.
//!
//! Out of memory, it leaves a prefix of what was to be put after the text.
#![tactic(auto, using(sj_text::proofs::CutLemmas::cuts))]

ghost use Rattle.std.specs.Prelude.{◌≡◌, ◌<◌, ◌≤◌, ◌++◌, OnErr, OnOk};
ghost use Rattle.std.specs.List.{All};
ghost use Rattle.sj_lang.specs.FileAt.{FileAt};
ghost use Rattle.sj_lang.specs.FileView.{file_of};
ghost use Rattle.sj_print.specs.Pieces.{piece_text};
ghost use Rattle.sj_seat_told.specs.Opened.{told_end_lines, told_session_lines, told_sessions_lines};
ghost use Rattle.sj_seat_told_laws.specs.SeatsOpened.{accepted_end_text, opened_ends_line};
ghost use Rattle.sj_text.specs.Cut.{IsCutShort};

use crate::waits::slot_of;
use sj_base::{EndId, NoMemory};
use sj_lang::File;
use sj_print::{Piece, put_line, put_sent};
use sj_semantics::Opened;
use sj_told::ToldEnd;

/// How many sessions are numbered, at least, where these were opened: each has a number below.
pub(crate) fn session_count(opened: &[Opened]) -> usize
    ensures { All (λ o. o.sess < result) opened.now }
{
    let mut count = 0usize;
    for session in opened {
        count = count_with(count, session);
    }
    count
}

fn count_with(count: usize, session: &Opened) -> usize
    ensures more { count ≤ result }
    ensures below { session.now.sess < result }
{
    let after = session.sess as usize + 1;
    if count < after { after } else { count }
}

/// The line of each session that was opened, and those of the messages that its two ends sent, as
/// they are in the list of ends.
pub(crate) fn put_opened(
    text: &mut Vec<u8>,
    file: &File,
    ends: &[ToldEnd],
    opened: &[Opened],
) -> Result<(), NoMemory>
    ensures ok { OnOk result (text.new.items ≡ text.old.items
        ++ told_sessions_lines (file_of file.now) ends.now opened.now) }
    ensures err { OnErr result (IsCutShort text.old.items
        (told_sessions_lines (file_of file.now) ends.now opened.now) text.new.items) }
{
    for session in opened {
        put_session(text, file, ends, session)?;
    }
    Ok(())
}

fn put_session(
    text: &mut Vec<u8>,
    file: &File,
    ends: &[ToldEnd],
    session: &Opened,
) -> Result<(), NoMemory>
    ensures ok { OnOk result (text.new.items ≡ text.old.items
        ++ told_session_lines (file_of file.now) ends.now session.now) }
    ensures err { OnErr result (IsCutShort text.old.items
        (told_session_lines (file_of file.now) ends.now session.now) text.new.items) }
{
    let sess = session.sess;
    put_opened_line(text, file, session)?;
    put_end(text, file, ends, EndId { sess, side: 0 })?;
    put_end(text, file, ends, EndId { sess, side: 1 })
}

// Who opened the session, and to whom, each with the end.
fn put_opened_line(text: &mut Vec<u8>, file: &File, session: &Opened) -> Result<(), NoMemory>
    ensures ok { OnOk result (text.new.items
        ≡ text.old.items ++ opened_ends_line (file_of file.now) session.now) }
    ensures err { OnErr result (IsCutShort text.old.items
        (opened_ends_line (file_of file.now) session.now) text.new.items) }
{
    let sess = session.sess;
    let front = [
        Piece::Plain(b"session"),
        Piece::Number(sess as u64),
        Piece::Party(session.from),
        Piece::End(EndId { sess, side: 0 }),
        Piece::Party(session.to),
    ];
    put_line(text, file, &front, accepted_piece(sess, session.second))
}

// The second end, or a dash where nobody accepted it.
fn accepted_piece(sess: u32, name: Option<u16>) -> Piece
    ensures { (f : FileAt) → piece_text f result ≡ accepted_end_text sess name }
{
    match name {
        Some(_) => Piece::End(EndId { sess, side: 1 }),
        None => Piece::Plain(b"-"),
    }
}

// What was sent on the end.
fn put_end(text: &mut Vec<u8>, file: &File, ends: &[ToldEnd], end: EndId) -> Result<(), NoMemory>
    ensures ok { OnOk result (text.new.items
        ≡ text.old.items ++ told_end_lines (file_of file.now) ends.now end) }
    ensures err { OnErr result (IsCutShort text.old.items
        (told_end_lines (file_of file.now) ends.now end) text.new.items) }
{
    match ends.get(slot_of(end) as usize) {
        Some(told) => put_sent(text, file, end, &told.sent, &told.takers),
        None => Ok(()),
    }
}
