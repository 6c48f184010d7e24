//! Lines that end with a message, of transcripts and of logs.
//!
//! Out of memory, it leaves a prefix of what was to be put after the text.
#![tactic(auto, using(sj_text::proofs::CutLemmas::cuts))]

ghost use Rattle.std.specs.Prelude.{◌≡◌, ◌++◌, OnOk, OnErr, map};
ghost use Rattle.sj_text.specs.Cut.{IsCutShort};
ghost use Rattle.sj_lang.specs.FileView.{file_of};
ghost use Rattle.sj_semantics.specs.Lines.{line_of, message_words};
ghost use Rattle.sj_print.specs.Pieces.{message_text, piece_text};

use crate::pieces::{Piece, put_byte, put_spaced, put_words};
use sj_base::{EndId, Msg, NoMemory};
use sj_lang::File;

/// Puts a line of these and then the message after the text.
pub(crate) fn put_message_line(
    text: &mut Vec<u8>,
    file: &File,
    front: &[Piece],
    msg: &Msg,
) -> Result<(), NoMemory>
    ensures ok { OnOk result (text.new.items ≡ text.old.items ++ line_of
        (map (piece_text (file_of file.now)) front.now ++ message_words (file_of file.now) msg.now)) }
    ensures err { OnErr result (IsCutShort text.old.items (line_of
        (map (piece_text (file_of file.now)) front.now ++ message_words (file_of file.now) msg.now))
        text.new.items) }
{
    put_spaced(text, file, front)?;
    put_message(text, file, msg)
}

// The end of the line of a message.
fn put_message(text: &mut Vec<u8>, file: &File, msg: &Msg) -> Result<(), NoMemory>
    ensures ok { OnOk result (text.new.items
        ≡ text.old.items ++ line_of (message_words (file_of file.now) msg.now)) }
    ensures err { OnErr result (IsCutShort text.old.items
        (line_of (message_words (file_of file.now) msg.now)) text.new.items) }
{
    print_message(text, file, msg)?;
    put_byte(text, b'\n')
}

/// Puts the text of a message after the text, without a newline. Out of memory, it leaves a prefix
/// of the message.
pub fn print_message(text: &mut Vec<u8>, file: &File, msg: &Msg) -> Result<(), NoMemory>
    ensures ok { OnOk result (text.new.items
        ≡ text.old.items ++ message_text (file_of file.now) msg.now) }
    ensures err { OnErr result (IsCutShort text.old.items
        (message_text (file_of file.now) msg.now) text.new.items) }
{
    match *msg {
        Msg::Int(n) => put_words(text, file, &[Piece::Plain(b"int")], Piece::Int(n)),
        Msg::Bool(true) => {
            put_words(
                text,
                file,
                &[Piece::Plain(b"boolean")],
                Piece::Plain(b"true"),
            )
        }
        Msg::Bool(false) => {
            put_words(
                text,
                file,
                &[Piece::Plain(b"boolean")],
                Piece::Plain(b"false"),
            )
        }
        Msg::Text(n) => put_words(text, file, &[Piece::Plain(b"String")], Piece::Text(n)),
        Msg::Label(n) => put_words(text, file, &[Piece::Plain(b"label")], Piece::Word(n)),
        Msg::More(true) => put_words(text, file, &[], Piece::Plain(b"more")),
        Msg::More(false) => put_words(text, file, &[], Piece::Plain(b"stop")),
        Msg::Sess { sess, side, keeper } => {
            let end = Piece::End(EndId { sess, side });
            put_words(
                text,
                file,
                &[Piece::Plain(b"session"), end],
                Piece::Party(keeper),
            )
        }
    }
}
