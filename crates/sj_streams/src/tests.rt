//! Commands as bytes, replies as a server gives them, and replies that are refused.
use crate::{
    Came, Misread, Refusal, Reply, add_frames, begin_batch, frames_for, lines_of, put_add,
    put_read, read_came, refusal_of,
};
use sj_resp::{Token, TokenDecoder};
use std::alloc::Global;
use std::collections::VecDeque;
use std::test::Fail;

// Entries 2 and 3 of a stream of which entry 1 was seen.
const CAME: &[u8] =
    b"*1\r\n*2\r\n$1\r\ns\r\n*2\r\n*2\r\n$3\r\n2-0\r\n*2\r\n$1\r\ne\r\n$1\r\na\r\n*2\r\n$3\r\n3-0\r\n*4\r\n$1\r\ne\r\n$1\r\nb\r\n$1\r\n0\r\n$1\r\nx\r\n";

// A reply, why it is refused, and what is wrong.
const REFUSED: [(&[u8], Misread, &str); 5] = [
    (b"*0\r\n", Misread::Shape, "no stream, and no null"),
    (b"+OK\r\n", Misread::Shape, "a line"),
    (
        b"*1\r\n*2\r\n$1\r\nt\r\n*0\r\n",
        Misread::Key,
        "another key",
    ),
    (
        b"*1\r\n*2\r\n$1\r\ns\r\n*1\r\n*2\r\n$3\r\n3-0\r\n*0\r\n",
        Misread::Gap,
        "a number is passed over",
    ),
    (
        b"*1\r\n*2\r\n$1\r\ns\r\n*1\r\n*2\r\n$3\r\n1-0\r\n*0\r\n",
        Misread::Gap,
        "a number comes again",
    ),
];

const ERRORS: [(&[u8], Refusal); 4] = [
    (
        b"ERR The ID specified in XADD is equal or smaller than the target stream top item",
        Refusal::Late,
    ),
    (b"NOAUTH Authentication required.", Refusal::Password),
    (b"OOM command not allowed", Refusal::Full),
    (b"ERR unknown command", Refusal::Other),
];

// The tokens of a reply, fed byte by byte; none where they are less than a reply, or more.
fn tokens(alloc: Global, text: &[u8]) -> Option<VecDeque<Token>> {
    let mut decoder = TokenDecoder::new(alloc);
    let mut reply = Reply::new(alloc);
    for &byte in text {
        if reply.gather(&mut decoder) != Ok(false) {
            return None;
        }
        if decoder.feed(&[byte]).is_err() {
            return None;
        }
    }
    match reply.gather(&mut decoder) {
        Ok(true) => Some(reply.into_tokens()),
        _ => None,
    }
}

// What came of the stream `s`, of which entry 1 was seen.
fn came(alloc: Global, text: &[u8]) -> Result<Vec<Came>, Misread> {
    let Some(mut tokens) = tokens(alloc, text) else {
        return Err(Misread::NoMemory);
    };
    let mut keys = Vec::new(alloc);
    keys.push(Vec::from_slice(alloc, b"s")?)?;
    read_came(alloc, &mut tokens, &keys, &[1])
}

#[test]
fn entries_come_by_their_numbers(rt: HostRuntime) -> Result<(), Fail> {
    let streams = came(rt.alloc(), CAME).unwrap_or(Vec::new(rt.alloc()));
    assert_eq!(rt; streams.len(), 1);
    assert_eq!(rt; streams[0].first, 2);
    assert_eq!(rt; streams[0].entries.len(), 2);
    let words = &streams[0].entries[1];
    assert_eq!(rt; lines_of(words), Some(b"b".as_slice()));
    assert_eq!(rt; frames_for(words, b"0"), b"x".as_slice());
    assert_eq!(rt; frames_for(words, b"1"), b"".as_slice());
    Ok(())
}

#[test]
fn nothing_comes_of_a_null(rt: HostRuntime) -> Result<(), Fail> {
    assert_eq!(rt;
        came(rt.alloc(), b"*-1\r\n").map(|streams| streams.len()),
        Ok(0)
    );
    Ok(())
}

#[test]
fn what_is_no_reply_is_refused(rt: HostRuntime) -> Result<(), Fail> {
    for (text, wanted, what) in REFUSED {
        assert_eq!(rt; came(rt.alloc(), text).err(), Some(wanted), "{what}");
    }
    Ok(())
}

#[test]
fn errors_have_a_name(rt: HostRuntime) -> Result<(), Fail> {
    for (line, wanted) in ERRORS {
        assert_eq!(rt; refusal_of(line), wanted);
    }
    Ok(())
}

#[test]
fn commands_are_spelt(rt: HostRuntime) -> Result<(), Fail> {
    let mut words = begin_batch(rt.alloc(), Vec::from_slice(rt.alloc(), b"a")?)?;
    add_frames(&mut words, 2, Vec::from_slice(rt.alloc(), b"xy")?)?;
    let mut out = Vec::new(rt.alloc());
    put_add(&mut out, b"s", 7, &words)?;
    assert_eq!(rt;
        out.as_slice(),
        b"*7\r\n$4\r\nXADD\r\n$1\r\ns\r\n$3\r\n7-0\r\n$1\r\ne\r\n$1\r\na\r\n$1\r\n2\r\n$2\r\nxy\r\n".as_slice()
    );
    Ok(())
}
