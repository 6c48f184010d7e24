//! Cases as text: a line `$ WORDS # NAME` for each, and after it the lines that the command reads.
use crate::answers::{answer_over, put_answer};
use sj_base::NoMemory;
use sj_lane::{MemLinks, RingLinks};
use sj_text::put;
use std::alloc::Global;
use std::thread::Threads;

/// What stands between two cases: a newline, and what the first line of a case begins with.
const BETWEEN: &str = "\n$ ";

/// The cases again, each as its first line alone, with what it gives after it.
pub(crate) fn report<R: Threads + Sync>(
    rt: &R,
    alloc: Global,
    cases: &str,
) -> Result<Vec<u8>, NoMemory> {
    let cases = cases.strip_prefix("$ ").unwrap_or(cases);
    let cases = cases.strip_suffix("\n").unwrap_or(cases);
    let mut told = Vec::new(alloc);
    for case in cases.split(BETWEEN) {
        match case.split_once("\n") {
            Some((head, lines)) => put_case(rt, alloc, &mut told, head, &lined(alloc, lines)?)?,
            None => put_case(rt, alloc, &mut told, case, b"")?,
        }
    }
    Ok(told)
}

// The lines with the newline of the last one.
fn lined(alloc: Global, lines: &str) -> Result<Vec<u8>, NoMemory> {
    let mut bytes = Vec::from_slice(alloc, lines.as_bytes())?;
    bytes.push(b'\n')?;
    Ok(bytes)
}

// The words before `#`.
fn words_in(alloc: Global, head: &str) -> Result<Vec<String>, NoMemory> {
    let mut words = Vec::new(alloc);
    for word in head.split_whitespace() {
        if word == "#" {
            break;
        }
        words.push(String::from_str(alloc, word)?)?;
    }
    Ok(words)
}

// The case's first line, and what comes over rings; and what comes over lists, where that is
// something else.
fn put_case<R: Threads + Sync>(
    rt: &R,
    alloc: Global,
    told: &mut Vec<u8>,
    head: &str,
    bytes: &[u8],
) -> Result<(), NoMemory> {
    let words = words_in(alloc, head)?;
    let over_rings = answer_over(rt, alloc, &words, bytes, &mut RingLinks::new())?;
    let over_lists = answer_over(rt, alloc, &words, bytes, &mut MemLinks::new())?;
    put(told, b"$ ")?;
    put(told, head.as_bytes())?;
    put(told, b"\n")?;
    put_answer(told, &over_rings)?;
    if over_lists.status != over_rings.status || over_lists.text() != over_rings.text() {
        put(told, b"lists differ\n")?;
        put_answer(told, &over_lists)?;
    }
    Ok(())
}
