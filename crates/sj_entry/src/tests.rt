//! Programs that are called with words in memory.
use crate::enter;
use sj_base::{MemSink, MemSource};
use sj_lane::RingLinks;
use sj_work::NoGate;
use std::alloc::Global;
use std::env::FillError;
use std::rt::Env;
use std::test::Fail;
use std::thread::Threads;

// The words of a call, the program's name first.
#[derive(Drop)]
struct Words<'a> {
    words: &'a [&'a [u8]],
}

impl Env for Words<'_> {
    fn arg(&self, i: usize, buf: &mut [u8]) -> Result<usize, FillError> {
        let Some(word) = self.words.get(i) else {
            return Err(FillError::NotPresent);
        };
        match buf.get_mut(..word.len()) {
            Some(room) => {
                room.copy_from_slice(word);
                Ok(word.len())
            }
            None => Err(FillError::TooLong),
        }
    }

    fn var(&self, _name: &str, _buf: &mut [u8]) -> Result<usize, FillError> {
        Err(FillError::NotPresent)
    }

    fn var_at(&self, _i: usize, _buf: &mut [u8]) -> Result<usize, FillError> {
        Err(FillError::NotPresent)
    }
}

const USAGE: &str =
    "usage: sj check | show | sim | run [--log] [--looks N] | replay [--log] | make N | big N\n";

// Two parties that each wait for the other.
const OPPOSITE: &str = "protocol p { begin.!<int> }\n\
    protocol q { begin.?(int) }\n\
    party a { recv x n int; send w 1; close x; close w; }\n\
    party b { recv z n int; send y 1; close y; close z; }\n\
    connect a x q to b y p;\n\
    connect a w p to b z q;\n";

// The status that comes of the words and the text, and what is written.
fn entered<R: Threads + Sync>(
    rt: &R,
    alloc: Global,
    words: &[&[u8]],
    text: &str,
) -> Result<(u8, MemSink), Fail> {
    let bytes = Vec::from_slice(alloc, text.as_bytes())?;
    let mut src = MemSource::new(bytes, Vec::new(alloc));
    let mut out = MemSink::new(alloc, 100_000, Vec::new(alloc))?;
    let mut links = RingLinks::new();
    let env = (Words { words }, alloc);
    let status = enter(&env, rt, &mut src, &mut out, &mut links, &NoGate);
    Ok((status, out))
}

#[test]
fn the_status_of_the_top_call(rt: HostRuntime) -> Result<(), Fail> {
    let rows: [(&[&[u8]], u8); 5] = [
        (&[b"sj", b"check"], 0),
        (&[b"sj", b"run"], 6),
        (&[b"sj", b"make", b"1"], 0),
        (&[b"sj", b"fly"], 1),
        (&[b"sj"], 1),
    ];
    for (words, status) in rows {
        let (found, _) = entered(&rt, rt.alloc(), words, OPPOSITE)?;
        assert_eq!(rt; found, status, "{words:?}");
    }
    Ok(())
}

#[test]
fn words_that_are_no_text(rt: HostRuntime) -> Result<(), Fail> {
    let rows: [&[&[u8]]; 4] = [
        &[b"sj", b"\xff"],
        &[b"sj", b"run", b"\xc3"],
        &[b"\x80", b"run"],
        &[b"sj", b"run", b"--log=\xed\xa0\x80"],
    ];
    for words in rows {
        let (status, out) = entered(&rt, rt.alloc(), words, OPPOSITE)?;
        assert_eq!(rt; out.text(), USAGE.as_bytes(), "{words:?}");
        assert_eq!(rt; status, 1, "{words:?}");
    }
    Ok(())
}
