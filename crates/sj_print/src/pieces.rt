//! Lines are put together from pieces, with one space between each two.
//!
//! Out of memory, it leaves a prefix of what was to be put after the text.
#![tactic(auto, using(sj_text::proofs::CutLemmas::cuts))]

ghost use Rattle.std.specs.Prelude.{◌≡◌, ◌++◌, ◌∷◌, [], OnOk, OnErr, map, None};
ghost use Rattle.sj_text.specs.Cut.{IsCutShort};
ghost use Rattle.sj_lang.specs.FileView.{file_of};
ghost use Rattle.sj_semantics.specs.Lines.{line_of, word_at, or_number, quoted_at, name_of, end_text, in_quotes};
ghost use Rattle.sj_print.specs.LogLine.{resend_word};
ghost use Rattle.sj_print.specs.Pieces.{piece_text, spaced_text, words_text};

use sj_base::{EndId, NoMemory};
use sj_lang::{File, Words};
use sj_text::{put, put_int, put_number};

/// A word of a line.
#[derive(Clone, Copy)]
pub enum Piece {
    /// These bytes.
    Plain(&'static [u8]),
    Number(u64),
    Int(i64),
    /// The end's session and side, with a dot between.
    End(EndId),
    /// The name of the party of that number.
    Party(u16),
    /// The word of that number.
    Word(u16),
    /// The text of that number, in quotes.
    Text(u32),
    /// The number of the message from which on is resent, or `-`.
    Resend(Option<u32>),
}

/// Puts one byte after the text. Out of memory, it leaves the text as it was.
pub(crate) fn put_byte(text: &mut Vec<u8>, byte: u8) -> Result<(), NoMemory>
    ensures ok { OnOk result (text.new.items ≡ text.old.items ++ byte ∷ []) }
    ensures err { OnErr result (text.new.items ≡ text.old.items) }
{
    Ok(text.push(byte)?)
}

/// Puts a line of these after the text, with one space between each two. Out of memory, it leaves a
/// prefix of the line.
pub fn put_line(
    text: &mut Vec<u8>,
    file: &File,
    front: &[Piece],
    last: Piece,
) -> Result<(), NoMemory>
    ensures ok { OnOk result (text.new.items ≡ text.old.items
        ++ line_of (map (piece_text (file_of file.now)) (front.now ++ last ∷ []))) }
    ensures err { OnErr result (IsCutShort text.old.items
        (line_of (map (piece_text (file_of file.now)) (front.now ++ last ∷ []))) text.new.items) }
{
    put_spaced(text, file, front)?;
    put_piece(text, file, last)?;
    put_byte(text, b'\n')
}

/// Puts words after the text, with a space between each two.
pub(crate) fn put_words(
    text: &mut Vec<u8>,
    file: &File,
    front: &[Piece],
    last: Piece,
) -> Result<(), NoMemory>
    ensures ok { OnOk result (text.new.items ≡ text.old.items
        ++ words_text (map (piece_text (file_of file.now)) (front.now ++ last ∷ []))) }
    ensures err { OnErr result (IsCutShort text.old.items
        (words_text (map (piece_text (file_of file.now)) (front.now ++ last ∷ []))) text.new.items) }
{
    put_spaced(text, file, front)?;
    put_piece(text, file, last)
}

/// Puts these after the text, each with a space after it.
pub(crate) fn put_spaced(text: &mut Vec<u8>, file: &File, front: &[Piece]) -> Result<(), NoMemory>
    ensures ok { OnOk result (text.new.items
        ≡ text.old.items ++ spaced_text (file_of file.now) front.now) }
    ensures err { OnErr result (IsCutShort text.old.items
        (spaced_text (file_of file.now) front.now) text.new.items) }
{
    for piece in front {
        put_piece(text, file, *piece)?;
        put_byte(text, b' ')?;
    }
    Ok(())
}

fn put_piece(text: &mut Vec<u8>, file: &File, piece: Piece) -> Result<(), NoMemory>
    ensures ok { OnOk result (text.new.items
        ≡ text.old.items ++ piece_text (file_of file.now) piece) }
    ensures err { OnErr result (IsCutShort text.old.items
        (piece_text (file_of file.now) piece) text.new.items) }
{
    match piece {
        Piece::Plain(bytes) => put(text, bytes),
        Piece::Number(n) => put_number(text, n),
        Piece::Int(n) => put_int(text, n),
        Piece::End(end) => put_end(text, end),
        Piece::Party(party) => print_name(text, file, party),
        Piece::Word(n) => put_word(text, &file.names.words, u32::from(n)),
        Piece::Text(n) => put_quoted(text, &file.names.texts, n),
        Piece::Resend(number) => put_resend(text, number),
    }
}

/// Puts the name of the party of that number after the text, or `#` and the number where none has
/// it.
pub fn print_name(text: &mut Vec<u8>, file: &File, party: u16) -> Result<(), NoMemory>
    ensures ok { OnOk result (text.new.items ≡ text.old.items ++ name_of (file_of file.now) party) }
    ensures err { OnErr result (IsCutShort text.old.items
        (name_of (file_of file.now) party) text.new.items) }
{
    match file.parties.get(party as usize) {
        Some(party) => put_word(text, &file.names.words, u32::from(party.name)),
        None => put_nameless(text, u32::from(party)),
    }
}

// The text of that number in quotes, or `#` and the number alone.
fn put_quoted(text: &mut Vec<u8>, texts: &Words, n: u32) -> Result<(), NoMemory>
    ensures ok { OnOk result (text.new.items ≡ text.old.items ++ quoted_at texts.now n) }
    ensures err { OnErr result (IsCutShort text.old.items (quoted_at texts.now n) text.new.items) }
{
    match texts.get(n as usize) {
        Some(bytes) => put_in_quotes(text, bytes),
        None => put_nameless(text, n),
    }
}

fn put_in_quotes(text: &mut Vec<u8>, bytes: &[u8]) -> Result<(), NoMemory>
    ensures ok { OnOk result (text.new.items ≡ text.old.items ++ in_quotes bytes.now) }
    ensures err { OnErr result (IsCutShort text.old.items
        (in_quotes bytes.now) text.new.items) }
{
    put_byte(text, b'"')?;
    put(text, bytes)?;
    put_byte(text, b'"')
}

// The word of that number, or `#` and the number.
fn put_word(text: &mut Vec<u8>, words: &Words, n: u32) -> Result<(), NoMemory>
    ensures ok { OnOk result (text.new.items ≡ text.old.items ++ word_at words.now n) }
    ensures err { OnErr result (IsCutShort text.old.items (word_at words.now n) text.new.items) }
{
    match words.get(n as usize) {
        Some(word) => put(text, word),
        None => put_nameless(text, n),
    }
}

// A number that names nothing.
fn put_nameless(text: &mut Vec<u8>, n: u32) -> Result<(), NoMemory>
    ensures ok { OnOk result (text.new.items ≡ text.old.items ++ or_number n None) }
    ensures err { OnErr result (IsCutShort text.old.items (or_number n None) text.new.items) }
{
    put(text, b"#")?;
    put_number(text, u64::from(n))
}

fn put_end(text: &mut Vec<u8>, end: EndId) -> Result<(), NoMemory>
    ensures ok { OnOk result (text.new.items ≡ text.old.items ++ end_text end.sess end.side) }
    ensures err { OnErr result (IsCutShort text.old.items
        (end_text end.sess end.side) text.new.items) }
{
    put_number(text, end.sess as u64)?;
    put_byte(text, b'.')?;
    put_number(text, end.side as u64)
}

fn put_resend(text: &mut Vec<u8>, number: Option<u32>) -> Result<(), NoMemory>
    ensures ok { OnOk result (text.new.items ≡ text.old.items ++ resend_word number) }
    ensures err { OnErr result (IsCutShort text.old.items (resend_word number) text.new.items) }
{
    match number {
        Some(n) => put_number(text, u64::from(n)),
        None => put(text, b"-"),
    }
}
