//! The file of which two codes play both parties.

use sj_base::NoMemory;
use sj_check::{Accepted, check};
use sj_party::parse_file;
use sj_proto::Tokens;
use std::alloc::Global;

/// How many messages one turn of the loop has.
pub(crate) const MESSAGES: u32 = 100;

/// What goes to and fro: each message one way, or every second one back.
#[derive(Clone, Copy, PartialEq, Eq)]
pub(crate) enum Kind {
    Stream,
    PingPong,
}

/// Whether the party that the connection names first sends the message of that number in a turn,
/// counted from 0.
pub(crate) fn goes_out(kind: Kind, number: u32) -> bool {
    kind == Kind::Stream || number % 2 == 0
}

/// So many of these items or statements, parted so.
fn put_all(
    text: &mut Vec<u8>,
    kind: Kind,
    own: bool,
    ways: &[&[u8]; 2],
    between: &[u8],
) -> Result<(), NoMemory> {
    for number in 0..MESSAGES {
        if number > 0 {
            text.extend_from_slice(between)?;
        }
        let out = goes_out(kind, number) == own;
        text.extend_from_slice(if out { ways[0] } else { ways[1] })?;
    }
    Ok(())
}

/// The text of the file.
fn text_of(alloc: Global, kind: Kind) -> Result<Vec<u8>, NoMemory> {
    let mut text = Vec::new(alloc);
    let items: [&[u8]; 2] = [b"!<int>", b"?(int)"];
    text.extend_from_slice(b"protocol p { begin.![")?;
    put_all(&mut text, kind, true, &items, b".")?;
    text.extend_from_slice(b"]* }\nprotocol q { begin.?[")?;
    put_all(&mut text, kind, false, &items, b".")?;
    text.extend_from_slice(b"]* }\nparty a { outwhile x 0 { ")?;
    put_all(
        &mut text,
        kind,
        true,
        &[b"send x 0;", b"recv x n int;"],
        b" ",
    )?;
    text.extend_from_slice(b" } close x; }\nparty b { inwhile y { ")?;
    put_all(
        &mut text,
        kind,
        false,
        &[b"send y 0;", b"recv y n int;"],
        b" ",
    )?;
    text.extend_from_slice(b" } close y; }\nconnect a x p to b y q;\n")?;
    Ok(text)
}

/// The file.
pub(crate) fn file_of(alloc: Global, kind: Kind) -> Option<Accepted> {
    let Ok(text) = text_of(alloc, kind) else {
        return None;
    };
    if text.len() > Tokens::MOST_BYTES {
        return None;
    }
    let Ok(file) = parse_file(alloc, &text) else {
        return None;
    };
    match check(alloc, file) {
        Ok(accepted) => Some(accepted),
        Err(_) => None,
    }
}
