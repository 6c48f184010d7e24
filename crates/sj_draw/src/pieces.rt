//! Text of a picture, put together from pieces.
ghost use Rattle.std.specs.Prelude.{◌≡◌, ◌++◌, OnOk};
ghost use Rattle.sj_draw.specs.Piece.{cut_text, escaped, escaped_byte, piece_text, pieces_text};

use sj_base::NoMemory;
use sj_text::{put, put_number};

/// A piece of a picture's text.
#[derive(Clone, Copy)]
pub(crate) enum Piece<'a> {
    /// Text of the format.
    Plain(&'a [u8]),
    Number(u64),
    /// A name or a message, whose `&`, `<` and `>` are no signs of the format.
    Escaped(&'a [u8]),
    /// The same, of at most so many letters; an ellipsis stands for the rest.
    Cut(&'a [u8], usize),
}

/// Puts these after the text, one after another.
pub(crate) fn put_pieces(text: &mut Vec<u8>, pieces: &[Piece<'_>]) -> Result<(), NoMemory>
    ensures { OnOk result (text.new.items ≡ text.old.items ++ pieces_text pieces.now) }
{
    for piece in pieces {
        put_piece(text, *piece)?;
    }
    Ok(())
}

fn put_piece(text: &mut Vec<u8>, piece: Piece<'_>) -> Result<(), NoMemory>
    ensures { OnOk result (text.new.items ≡ text.old.items ++ piece_text piece.entry) }
{
    match piece {
        Piece::Plain(bytes) => put(text, bytes),
        Piece::Number(n) => put_number(text, n),
        Piece::Escaped(bytes) => put_escaped(text, bytes),
        Piece::Cut(bytes, room) => put_cut(text, bytes, room),
    }
}

fn put_cut(text: &mut Vec<u8>, bytes: &[u8], room: usize) -> Result<(), NoMemory>
    ensures { OnOk result (text.new.items ≡ text.old.items ++ cut_text room bytes.now) }
{
    if bytes.len() <= room {
        return put_escaped(text, bytes);
    }
    put_escaped(text, &bytes[..room])?;
    put(text, b"&#8230;")
}

fn put_escaped(text: &mut Vec<u8>, bytes: &[u8]) -> Result<(), NoMemory>
    ensures { OnOk result (text.new.items ≡ text.old.items ++ escaped bytes.now) }
{
    for b in bytes {
        put_escaped_byte(text, *b)?;
    }
    Ok(())
}

fn put_escaped_byte(text: &mut Vec<u8>, b: u8) -> Result<(), NoMemory>
    ensures { OnOk result (text.new.items ≡ text.old.items ++ escaped_byte b) }
{
    if b == b'&' {
        return put(text, b"&amp;");
    }
    if b == b'<' {
        return put(text, b"&lt;");
    }
    if b == b'>' {
        return put(text, b"&gt;");
    }
    put(text, &[b])
}
