//! The lines of a transcript.
//!
//! Out of memory, it leaves a prefix of what was to be put after the text.
#![tactic(auto, using(sj_text::proofs::CutLemmas::cuts))]

ghost use Rattle.std.specs.Prelude.{◌≡◌, ◌++◌, ◌∷◌, [], OnOk, OnErr, slice_get};
ghost use Rattle.std.specs.Option.{option_to_list};
ghost use Rattle.sj_text.specs.Cut.{IsCutShort};
ghost use Rattle.sj_lang.specs.FileAt.{FileAt};
ghost use Rattle.sj_lang.specs.FileView.{file_of, connect_of};
ghost use Rattle.sj_semantics.specs.Lines.{line_of};
ghost use Rattle.sj_semantics.specs.Transcript.{accepted_text, opened_line, sent_lines, session_line, taker_text, verdict_word};
ghost use Rattle.sj_print.specs.Parts.{party_part, passed_part};
ghost use Rattle.sj_print.specs.Pieces.{piece_text};

use crate::messages::put_message_line;
use crate::pieces::{Piece, put_line};
use sj_base::{EndId, NoMemory};
use sj_lang::{Connect, File};
use sj_semantics::{Limit, Opened, Passed, State, Verdict};
use sj_text::put;

/// The line of a session: its number, and the party and the name of each end.
pub(crate) fn put_session(
    text: &mut Vec<u8>,
    file: &File,
    sess: u32,
    connect: &Connect,
) -> Result<(), NoMemory>
    ensures ok { OnOk result (text.new.items
        ≡ text.old.items ++ session_line (file_of file.now) sess (connect_of connect.now)) }
    ensures err { OnErr result (IsCutShort text.old.items
        (session_line (file_of file.now) sess (connect_of connect.now)) text.new.items) }
{
    let front = [
        Piece::Plain(b"session"),
        Piece::Number(sess as u64),
        Piece::Word(connect.first.party),
        Piece::Word(connect.first.name),
        Piece::Word(connect.second.party),
    ];
    put_line(text, file, &front, Piece::Word(connect.second.name))
}

/// The line of a session that was opened: its number, then the party and the name of the end of its
/// requester. After these stand to whom it was opened, and the name in the accept, or a dash.
pub(crate) fn put_opened(text: &mut Vec<u8>, file: &File, opened: &Opened) -> Result<(), NoMemory>
    ensures ok { OnOk result (text.new.items
        ≡ text.old.items ++ opened_line (file_of file.now) opened.now) }
    ensures err { OnErr result (IsCutShort text.old.items
        (opened_line (file_of file.now) opened.now) text.new.items) }
{
    let front = [
        Piece::Plain(b"session"),
        Piece::Number(opened.sess as u64),
        Piece::Party(opened.from),
        Piece::Word(opened.first),
        Piece::Party(opened.to),
    ];
    put_line(text, file, &front, accepted_piece(opened.second))
}

fn accepted_piece(name: Option<u16>) -> Piece
    ensures { (f : FileAt) → piece_text f result ≡ accepted_text f name }
{
    match name {
        Some(name) => Piece::Word(name),
        None => Piece::Plain(b"-"),
    }
}

/// Puts a line for each message that the end sent, with the party that took it, after the text. Out
/// of memory, it leaves a prefix of these lines.
pub fn put_sent(
    text: &mut Vec<u8>,
    file: &File,
    end: EndId,
    sent: &[Passed],
    takers: &[u16],
) -> Result<(), NoMemory>
    ensures ok { OnOk result (text.new.items
        ≡ text.old.items ++ sent_lines (file_of file.now) end.sess end.side 0 sent.now takers.now) }
    ensures err { OnErr result (IsCutShort text.old.items
        (sent_lines (file_of file.now) end.sess end.side 0 sent.now takers.now) text.new.items) }
{
    for i in 0..sent.len() {
        put_passed(text, file, end, i as u64, &sent[i], taker_of(takers, i))?;
    }
    Ok(())
}

// The line of the message of that number.
fn put_passed(
    text: &mut Vec<u8>,
    file: &File,
    end: EndId,
    number: u64,
    passed: &Passed,
    taker: Option<u16>,
) -> Result<(), NoMemory>
    ensures ok { OnOk result (text.new.items ≡ text.old.items
        ++ passed_part (file_of file.now) end number taker passed.now) }
    ensures err { OnErr result (IsCutShort text.old.items
        (passed_part (file_of file.now) end number taker passed.now) text.new.items) }
{
    let front = [
        Piece::End(end),
        Piece::Number(number),
        Piece::Party(passed.by),
        taker_piece(taker),
    ];
    put_message_line(text, file, &front, &passed.msg)
}

// Who took the message of that number.
fn taker_of(takers: &[u16], number: usize) -> Option<u16>
    ensures { result ≡ slice_get takers.now number }
{
    takers.get(number).copied()
}

fn taker_piece(taker: Option<u16>) -> Piece
    ensures { (f : FileAt) → piece_text f result ≡ taker_text f (option_to_list taker) }
{
    match taker {
        Some(party) => Piece::Party(party),
        None => Piece::Plain(b"-"),
    }
}

/// The line of a party: how it stands, and after how many steps. A party that could act has none
/// of this, and stands in no settled world.
pub(crate) fn put_party(
    text: &mut Vec<u8>,
    file: &File,
    name: u16,
    steps: u32,
    state: State,
) -> Result<(), NoMemory>
    ensures ok { OnOk result (text.new.items
        ≡ text.old.items ++ party_part (file_of file.now) name steps state) }
    ensures err { OnErr result (IsCutShort text.old.items
        (party_part (file_of file.now) name steps state) text.new.items) }
{
    let party = Piece::Plain(b"party");
    let name = Piece::Word(name);
    let steps = Piece::Number(steps as u64);
    let ended = Piece::Plain(b"ended");
    let waits = Piece::Plain(b"waits");
    let limit = Piece::Plain(b"limit");
    match state {
        State::Ready => put_line(text, file, &[party], name),
        State::Ended => put_line(text, file, &[party, name, ended], steps),
        State::Waits(end) => put_line(text, file, &[party, name, waits, steps], Piece::End(end)),
        State::WaitsOpen(from) => {
            let front = [party, name, waits, steps, Piece::Plain(b"from")];
            put_line(text, file, &front, Piece::Party(from))
        }
        State::AtLimit(Limit::Steps) => put_line(text, file, &[party, name, limit], steps),
        State::AtLimit(Limit::Hops(end)) => {
            put_line(text, file, &[party, name, limit, steps], Piece::End(end))
        }
        State::AtLimit(Limit::Requests) => {
            let front = [party, name, limit, steps];
            put_line(text, file, &front, Piece::Plain(b"request"))
        }
    }
}

/// Puts the line of the verdict after the text.
pub fn print_verdict(text: &mut Vec<u8>, verdict: Verdict) -> Result<(), NoMemory>
    ensures ok { OnOk result (text.new.items
        ≡ text.old.items ++ line_of (verdict_word verdict ∷ [])) }
    ensures err { OnErr result (IsCutShort text.old.items
        (line_of (verdict_word verdict ∷ [])) text.new.items) }
{
    match verdict {
        Verdict::Done => put(text, b"done\n"),
        Verdict::Blocked => put(text, b"blocked\n"),
        Verdict::Long => put(text, b"long\n"),
    }
}
