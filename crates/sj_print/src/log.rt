//! The lines of a log.
//!
//! Out of memory, it leaves a prefix of what was to be put after the text.
#![tactic(auto, using(sj_text::proofs::CutLemmas::cuts))]

ghost use Rattle.std.specs.Prelude.{◌≡◌, ◌++◌, OnOk, OnErr};
ghost use Rattle.sj_text.specs.Cut.{IsCutShort};
ghost use Rattle.sj_lang.specs.FileView.{file_of};
ghost use Rattle.sj_semantics.specs.Lines.{line_of};
ghost use Rattle.sj_print.specs.LogLine.{head_words, log_line, note_words};
ghost use Rattle.sj_print.specs.Pieces.{closed_words};
ghost use Rattle.sj_end.specs.Lines.{line_at, note_seen};

use crate::messages::put_message_line;
use crate::pieces::Piece::{End, Number, Party, Plain, Resend};
use crate::pieces::{put_line, put_spaced};
use sj_base::NoMemory;
use sj_end::{Event, Line, Note};
use sj_lang::File;

/// Puts the line of an event after the text: its clock, its party, from whom the frame came, and
/// what was done or what the frame said. Out of memory, it leaves a prefix of the line.
pub fn print_line(text: &mut Vec<u8>, file: &File, line: &Line) -> Result<(), NoMemory>
    ensures ok { OnOk result (text.new.items
        ≡ text.old.items ++ log_line (file_of file.now) (line_at line.now)) }
    ensures err { OnErr result (IsCutShort text.old.items
        (log_line (file_of file.now) (line_at line.now)) text.new.items) }
{
    put_head(text, file, line)?;
    put_note(text, file, &line.entry.note)
}

// The clock, the party and the origin, each with a space after it.
fn put_head(text: &mut Vec<u8>, file: &File, line: &Line) -> Result<(), NoMemory>
    ensures ok { OnOk result (text.new.items
        ≡ text.old.items ++ closed_words (head_words (file_of file.now) (line_at line.now))) }
    ensures err { OnErr result (IsCutShort text.old.items
        (closed_words (head_words (file_of file.now) (line_at line.now))) text.new.items) }
{
    let clock = Number(line.entry.clock);
    let party = Party(line.party);
    match line.entry.event {
        Event::Act => put_spaced(text, file, &[clock, party]),
        Event::Deliver(from) => {
            let from = [clock, party, Plain(b"from"), Party(from)];
            put_spaced(text, file, &from)
        }
    }
}

// The end of the line: what was done, or what the frame said.
fn put_note(text: &mut Vec<u8>, file: &File, note: &Note) -> Result<(), NoMemory>
    ensures ok { OnOk result (text.new.items ≡ text.old.items
        ++ line_of (note_words (file_of file.now) (note_seen note.now))) }
    ensures err { OnErr result (IsCutShort text.old.items
        (line_of (note_words (file_of file.now) (note_seen note.now))) text.new.items) }
{
    match *note {
        Note::Local => put_line(text, file, &[], Plain(b"local")),
        Note::Sent { end, msg } => {
            put_message_line(text, file, &[Plain(b"send"), End(end)], &msg)
        }
        Note::Took { end, msg } => {
            put_message_line(text, file, &[Plain(b"take"), End(end)], &msg)
        }
        Note::Shut { end } => put_line(text, file, &[Plain(b"close")], End(end)),
        Note::Carry {
            to,
            conn,
            number,
            taken,
            msg,
        } => {
            let front = [
                Plain(b"carry"),
                End(to),
                Number(conn as u64),
                Number(number as u64),
                Number(taken as u64),
            ];
            put_message_line(text, file, &front, &msg)
        }
        Note::Fin { to, conn, number } => {
            put_line(
                text,
                file,
                &[Plain(b"fin"), End(to), Number(conn as u64)],
                Number(number as u64),
            )
        }
        Note::Claim { of } => put_line(text, file, &[Plain(b"claim")], End(of)),
        Note::Signal {
            to,
            conn,
            party,
            taken,
        } => {
            let front = [Plain(b"signal"), End(to), Number(conn as u64), Party(party)];
            put_line(text, file, &front, Number(taken as u64))
        }
        Note::Ack { of, conn } => {
            put_line(text, file, &[Plain(b"ack"), End(of)], Number(conn as u64))
        }
        Note::Give {
            of,
            conn,
            peer,
            sent,
            taken,
            base,
            resend,
        } => {
            let front = [
                Plain(b"give"),
                End(of),
                Number(conn as u64),
                Party(peer),
                Number(sent as u64),
                Number(taken as u64),
                Number(base as u64),
            ];
            put_line(text, file, &front, Resend(resend))
        }
        Note::Request { sess, to } => {
            let front = [Plain(b"request"), Number(sess as u64)];
            put_line(text, file, &front, Party(to))
        }
        Note::Accept { sess, from } => {
            let front = [Plain(b"accept"), Number(sess as u64)];
            put_line(text, file, &front, Party(from))
        }
        Note::Open { sess } => put_line(text, file, &[Plain(b"open")], Number(sess as u64)),
    }
}
