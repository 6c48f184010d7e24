//! What a process is refused by, case by case.

use crate::link::Deed;
use crate::process::alone;
use sj_remote_run::{Outcome, PlayRefusal};
use std::alloc::Global;
use std::test::Fail;

const OF_A: &[u8] = b"sj:{r}:log:0";

const OF_B: &[u8] = b"sj:{r}:log:1";

const E: &[u8] = b"e";

const TO_A: &[u8] = b"0";

const TO_B: &[u8] = b"1";

// What a does in its first batch, and what b notes of it.
const LINES: &[u8] = b"1 a send 0.0 int 1\n2 a close 0.0\n";

const LINES_OF_B: &[u8] = b"2 b from a carry 0.1 0 0 0 int 1\n";

// A Fin of the end 0.1, as docs/FORMATS.md has it: that end is b's.
const FIN: &[u8] = b"\0\0\0\x17\x01\x02\0\0\0\0\0\0\0\x03\0\0\0\0\x01\0\0\0\0\0\0\0\x01";

// The connection of a party has the commands SETNX, GET and XREAD, and then XADD and XREAD by turns.
// What happens at which of them to a process of a, by what it is refused, and what is shown.
const REFUSED: [(u64, Deed, PlayRefusal, &str); 22] = [
    (
        0,
        Deed::Says(b"-LOADING Redis is loading the dataset in memory\r\n"),
        PlayRefusal::NoServer,
        "the server loads its file",
    ),
    (
        3,
        Deed::Says(b"-READONLY You can't write against a read only replica.\r\n"),
        PlayRefusal::NoServer,
        "a replica",
    ),
    (
        0,
        Deed::Shares(b"party a { }\n"),
        PlayRefusal::OtherFile,
        "the run has another file",
    ),
    (
        1,
        Deed::Says(b"$-1\r\n"),
        PlayRefusal::OtherFile,
        "the file is gone",
    ),
    (
        3,
        Deed::Adds {
            key: OF_A,
            number: 1,
            words: &[E, LINES],
        },
        PlayRefusal::Overtaken,
        "the number is taken",
    ),
    (
        4,
        Deed::Adds {
            key: OF_A,
            number: 2,
            words: &[E, LINES],
        },
        PlayRefusal::Overtaken,
        "another entry came after the own one",
    ),
    (3, Deed::Fills, PlayRefusal::Server, "the memory is full"),
    (
        2,
        Deed::Says(b"-ERR unknown command 'XREAD'\r\n"),
        PlayRefusal::Server,
        "no stream server",
    ),
    (
        2,
        Deed::Says(b"HTTP/1.1 400 Bad Request\r\n"),
        PlayRefusal::NoReply,
        "no reply",
    ),
    (
        0,
        Deed::Says(b"+OK\r\n"),
        PlayRefusal::NoReply,
        "a line in place of a number",
    ),
    (
        4,
        Deed::Says(b"*0\r\n"),
        PlayRefusal::NoReply,
        "no stream, and no null",
    ),
    (
        0,
        Deed::Cuts(0),
        PlayRefusal::Lost,
        "the end before a reply",
    ),
    (
        1,
        Deed::Cuts(70),
        PlayRefusal::Lost,
        "the end within a reply",
    ),
    (
        4,
        Deed::Cuts(2),
        PlayRefusal::Lost,
        "the end after an entry was added",
    ),
    (
        2,
        Deed::Adds {
            key: OF_B,
            number: 2,
            words: &[E, LINES_OF_B],
        },
        PlayRefusal::NoFrame,
        "a number of another's stream is passed over",
    ),
    (
        2,
        Deed::Adds {
            key: OF_B,
            number: 1,
            words: &[E, LINES_OF_B, TO_A],
        },
        PlayRefusal::NoFrame,
        "a name without frames",
    ),
    (
        4,
        Deed::Adds {
            key: OF_B,
            number: 1,
            words: &[E, LINES_OF_B, TO_A, b"\0\0\0\x01."],
        },
        PlayRefusal::NoFrame,
        "bytes that are no frame",
    ),
    (
        4,
        Deed::Adds {
            key: OF_B,
            number: 1,
            words: &[E, LINES_OF_B, TO_A, FIN],
        },
        PlayRefusal::Unfit,
        "a frame for another's end",
    ),
    (
        2,
        Deed::Adds {
            key: OF_A,
            number: 1,
            words: &[E, b"1 a send 0.0 int 2\n2 a close 0.0\n"],
        },
        PlayRefusal::LogFault,
        "another number was sent",
    ),
    (
        2,
        Deed::Adds {
            key: OF_A,
            number: 1,
            words: &[E, LINES, TO_B, FIN],
        },
        PlayRefusal::LogFault,
        "other frames than those of the lines",
    ),
    (
        2,
        Deed::Adds {
            key: OF_A,
            number: 1,
            words: &[E, b"1 a flies\n"],
        },
        PlayRefusal::LogFault,
        "no line of a log",
    ),
    (
        2,
        Deed::Adds {
            key: OF_A,
            number: 1,
            words: &[TO_B, FIN],
        },
        PlayRefusal::LogFault,
        "an entry without lines",
    ),
];

/// The first case that ends otherwise.
fn case_amiss(alloc: Global) -> Option<&'static str> {
    for (at, deed, refusal, what) in &REFUSED {
        if alone(alloc, None, None, Some((*at, *deed))) != Some(Err(*refusal)) {
            return Some(*what);
        }
    }
    None
}

#[test]
fn each_refusal_has_its_name(rt: HostRuntime) -> Result<(), Fail> {
    assert_eq!(rt; case_amiss(rt.alloc()), None);
    Ok(())
}

const RIGHT: Option<&[u8]> = Some(b"right");

const WRONG: Option<&[u8]> = Some(b"wrong");

// The password that is wanted, the one that is given, and what comes of it.
const GIVEN: [(Option<&[u8]>, Option<&[u8]>, Result<Outcome, PlayRefusal>); 5] = [
    (RIGHT, RIGHT, Ok(Outcome::Waits)),
    (RIGHT, WRONG, Err(PlayRefusal::Password)),
    (RIGHT, None, Err(PlayRefusal::Password)),
    (None, RIGHT, Err(PlayRefusal::Password)),
    (None, None, Ok(Outcome::Waits)),
];

/// How many of the cases end so, up to the first that doesn't.
fn passwords_that_go_so(alloc: Global) -> usize {
    let mut count: usize = 0;
    for (wanted, given, outcome) in &GIVEN {
        if alone(alloc, *wanted, *given, None) != Some(*outcome) {
            break;
        }
        count = count.saturating_add(1);
    }
    count
}

#[test]
fn a_password_is_asked_for(rt: HostRuntime) -> Result<(), Fail> {
    assert_eq!(rt; passwords_that_go_so(rt.alloc()), GIVEN.len());
    Ok(())
}
