//! Runs in memory.
use crate::{JoinRefusal, find, put_source};
use sj_base::{MemSink, MemSource};
use sj_remote::{Conn, TalkRefusal};
use std::alloc::Global;
use std::test::Fail;

const FILE: &[u8] =
    b"protocol p { begin.!<int> }\nprotocol q { begin.?(int) }\nparty a { send x 1; close x; }\nparty b { recv y n int; close y; }\nconnect a x p to b y q;\n";

// The streams of both parties, that of `a` in two entries.
const CAME: &[u8] =
    b"*2\r\n*2\r\n$12\r\nsj:{r}:log:0\r\n*2\r\n*2\r\n$3\r\n1-0\r\n*2\r\n$1\r\ne\r\n$33\r\n1 a send 0.0 int 1\n2 a close 0.0\n\r\n*2\r\n$3\r\n2-0\r\n*2\r\n$1\r\ne\r\n$23\r\n6 a from b fin 0.0 0 0\n\r\n*2\r\n$12\r\nsj:{r}:log:1\r\n*1\r\n*2\r\n$3\r\n1-0\r\n*2\r\n$1\r\ne\r\n$89\r\n2 b from a carry 0.1 0 0 0 int 1\n3 b from a fin 0.1 0 1\n4 b take 0.1 int 1\n5 b close 0.1\n\r\n";

const JOINED: &[u8] =
    b"1 a send 0.0 int 1\n2 a close 0.0\n2 b from a carry 0.1 0 0 0 int 1\n3 b from a fin 0.1 0 1\n4 b take 0.1 int 1\n5 b close 0.1\n6 a from b fin 0.0 0 0\n";

// What comes of the streams, why it isn't joined, and what is wrong.
const REFUSED: [(&[u8], JoinRefusal, &str); 6] = [
    (
        b"*1\r\n*2\r\n$12\r\nsj:{r}:log:0\r\n*2\r\n*2\r\n$3\r\n1-0\r\n*2\r\n$1\r\ne\r\n$33\r\n1 a send 0.0 int 1\n2 a close 0.0\n\r\n*2\r\n$3\r\n3-0\r\n*2\r\n$1\r\ne\r\n$23\r\n6 a from b fin 0.0 0 0\n\r\n",
        JoinRefusal::Talk(TalkRefusal::Gap),
        "a number is passed over",
    ),
    (
        b"*1\r\n*2\r\n$12\r\nsj:{r}:log:1\r\n*1\r\n*2\r\n$3\r\n1-0\r\n*2\r\n$1\r\ne\r\n$33\r\n1 a send 0.0 int 1\n2 a close 0.0\n\r\n",
        JoinRefusal::Disorder { party: 1 },
        "another party's lines",
    ),
    (
        b"*1\r\n*2\r\n$12\r\nsj:{r}:log:0\r\n*2\r\n*2\r\n$3\r\n1-0\r\n*2\r\n$1\r\ne\r\n$23\r\n6 a from b fin 0.0 0 0\n\r\n*2\r\n$3\r\n2-0\r\n*2\r\n$1\r\ne\r\n$33\r\n1 a send 0.0 int 1\n2 a close 0.0\n\r\n",
        JoinRefusal::Disorder { party: 0 },
        "a clock that falls",
    ),
    (
        b"*1\r\n*2\r\n$12\r\nsj:{r}:log:0\r\n*1\r\n*2\r\n$3\r\n1-0\r\n*2\r\n$1\r\ne\r\n$10\r\n1 a flies\n\r\n",
        JoinRefusal::NoLog {
            party: 0,
            rule: 1,
            line: 1,
        },
        "no line of a log",
    ),
    (
        b"*1\r\n*2\r\n$12\r\nsj:{r}:log:0\r\n*1\r\n*2\r\n$3\r\n1-0\r\n*2\r\n$1\r\nx\r\n$33\r\n1 a send 0.0 int 1\n2 a close 0.0\n\r\n",
        JoinRefusal::NoLines { party: 0 },
        "an entry without lines",
    ),
    (
        b"+OK\r\n",
        JoinRefusal::Talk(TalkRefusal::NoReply),
        "no streams",
    ),
];

// A connection on which the text of the file comes, and then that.
fn connect(alloc: Global, came: &[u8]) -> Result<Conn<MemSource, MemSink>, Fail> {
    let mut text = Vec::from_slice(alloc, b"$146\r\n")?;
    text.extend_from_slice(FILE)?;
    text.extend_from_slice(b"\r\n")?;
    text.extend_from_slice(came)?;
    let sink = MemSink::new(alloc, 4_096, Vec::new(alloc))?;
    Ok(Conn::new(alloc, MemSource::new(text, Vec::new(alloc)), sink)?)
}

#[test]
fn streams_are_joined(rt: HostRuntime) -> Result<(), Fail> {
    let mut conn = connect(rt.alloc(), CAME)?;
    let Ok(found) = find(rt.alloc(), &mut conn, b"r") else {
        return Err(Fail::from("nothing found"));
    };
    let mut text = found.text;
    let Some((file, lines)) = found.run else {
        return Err(Fail::from("no run"));
    };
    put_source(&mut text, &file, &lines)?;
    let mut wanted = Vec::from_slice(rt.alloc(), FILE)?;
    wanted.extend_from_slice(b"%%log\n")?;
    wanted.extend_from_slice(JOINED)?;
    assert_eq!(rt; text, wanted);
    Ok(())
}

#[test]
fn what_is_no_run_is_refused(rt: HostRuntime) -> Result<(), Fail> {
    for (came, refusal, wrong) in REFUSED {
        let mut conn = connect(rt.alloc(), came)?;
        let found = find(rt.alloc(), &mut conn, b"r");
        assert_eq!(rt; found.err(), Some(refusal), "{wrong}");
    }
    Ok(())
}
