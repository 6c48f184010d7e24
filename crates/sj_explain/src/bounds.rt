//! The limit that a token passes.

use crate::marks::Scanned;
use sj_base::NoMemory;
use sj_text::{put, put_number};

/// The most bytes of a name, and of a text with its quotes.
const MOST_NAME: usize = 64;

const MOST_TEXT: usize = 257;

/// What is within a limit: so many of these.
#[derive(Clone, Copy)]
struct Limit {
    whose: &'static [u8],
    most: u64,
    what: &'static [u8],
}

/// A line with the limit that the token of that number passes.
pub(crate) fn put_bound(
    text: &mut Vec<u8>,
    scanned: &Scanned<'_>,
    at: usize,
) -> Result<(), NoMemory> {
    let bound = bound_at(scanned, at);
    put(text, b"there: ")?;
    put(text, bound.whose)?;
    put(text, b" has at most ")?;
    put_number(text, bound.most)?;
    put(text, b" ")?;
    put(text, bound.what)?;
    put(text, b"\n")
}

fn bound_at(scanned: &Scanned<'_>, at: usize) -> Limit {
    let here = scanned.spelled(at);
    if here.len() > MOST_TEXT && here.first() == Some(&b'"') {
        return most_of(b"a text", 255, b"bytes");
    }
    if here.len() > MOST_NAME && is_word(here) {
        return most_of(b"a name", 64, b"bytes");
    }
    if here == b"protocol".as_slice() {
        return most_of(b"a file", 256, b"protocols");
    }
    if here == b"party".as_slice() {
        return most_of(b"a file", 16, b"parties");
    }
    if here == b"connect".as_slice() {
        return most_of(b"a file", 64, b"connections");
    }
    if is_in_protocol(scanned, at) {
        return bound_in_protocol(here);
    }
    bound_in_party(here)
}

fn most_of(whose: &'static [u8], most: u64, what: &'static [u8]) -> Limit {
    Limit { whose, most, what }
}

fn bound_in_protocol(here: &[u8]) -> Limit {
    match here.first() {
        Some(b'!' | b'?') => most_of(b"a protocol", 1_024, b"items, inner ones counted"),
        Some(b'<' | b'(' | b'{' | b'[') => most_of(b"a protocol", 32, b"brackets one in another"),
        _ => most_of(b"a choice", 16, b"labels"),
    }
}

fn bound_in_party(here: &[u8]) -> Limit {
    if here == b"{".as_slice() {
        return most_of(b"a party", 32, b"blocks one in another, beside its own");
    }
    if here == b"(".as_slice() || here == b"not".as_slice() {
        return most_of(
            b"an expression",
            32,
            b"parentheses and `not`s one in another",
        );
    }
    let what = b"numbers, texts, names, `true`s and `false`s";
    most_of(b"an expression", 256, what)
}

fn is_word(here: &[u8]) -> bool {
    match here.first() {
        Some(b) => b.is_ascii_alphabetic() || *b == b'_',
        None => false,
    }
}

// Whether the last part that begins before the token is a protocol.
fn is_in_protocol(scanned: &Scanned<'_>, at: usize) -> bool {
    let mut inside = true;
    for n in 0..at {
        let word = scanned.spelled(n);
        if word == b"protocol".as_slice() {
            inside = true;
        } else if word == b"party".as_slice() {
            inside = false;
        }
    }
    inside
}
