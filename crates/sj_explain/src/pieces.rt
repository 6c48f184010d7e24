//! Sentences, put together from pieces.

use sj_base::{EndId, NoMemory};
use sj_lang::{Item, Names, Proto, Scalar, append_copies};
use sj_proto::{print_protocol, put_word};
use sj_text::{put, put_number};
use std::alloc::Global;

/// A piece of a sentence.
#[derive(Clone, Copy)]
pub(crate) enum Piece<'a> {
    Said(&'a [u8]),
    Number(u64),
    /// The word of that number.
    Word(u16),
    Scalar(Scalar),
    /// Items, or `nothing`.
    Place(&'a Proto),
    /// One item alone.
    Item(&'a Item),
    End(EndId),
}

/// Puts these after the text, one after another.
pub(crate) fn put_pieces(
    alloc: Global,
    text: &mut Vec<u8>,
    names: &Names,
    pieces: &[Piece<'_>],
) -> Result<(), NoMemory> {
    for piece in pieces {
        put_piece(alloc, text, names, *piece)?;
    }
    Ok(())
}

fn put_piece(
    alloc: Global,
    text: &mut Vec<u8>,
    names: &Names,
    piece: Piece<'_>,
) -> Result<(), NoMemory> {
    match piece {
        Piece::Said(bytes) => put(text, bytes),
        Piece::Number(n) => put_number(text, n),
        Piece::Word(word) => put_word(text, names, word),
        Piece::Scalar(kind) => put(text, scalar_name(kind)),
        Piece::Place(place) => put_place(alloc, text, names, place),
        Piece::Item(item) => put_item(alloc, text, names, item),
        Piece::End(end) => put_end(text, end),
    }
}

fn put_end(text: &mut Vec<u8>, end: EndId) -> Result<(), NoMemory> {
    put_number(text, u64::from(end.sess))?;
    put(text, b".")?;
    put_number(text, u64::from(end.side))
}

fn put_item(alloc: Global, text: &mut Vec<u8>, names: &Names, item: &Item) -> Result<(), NoMemory> {
    let mut items = Vec::new(alloc);
    append_copies(alloc, &mut items, std::slice::from_ref(item))?;
    put_place(alloc, text, names, &Proto { items })
}

// The items without the word `begin`.
fn put_place(
    alloc: Global,
    text: &mut Vec<u8>,
    names: &Names,
    place: &Proto,
) -> Result<(), NoMemory> {
    let mut whole = Vec::new(alloc);
    print_protocol(&mut whole, names, place)?;
    match whole.get(6..) {
        Some(items) if !place.items.is_empty() => {
            put(text, b"`")?;
            put(text, items)?;
            put(text, b"`")
        }
        _ => put(text, b"nothing"),
    }
}

fn scalar_name(kind: Scalar) -> &'static [u8] {
    match kind {
        Scalar::Int => b"int",
        Scalar::Boolean => b"boolean",
        Scalar::Text => b"String",
    }
}
