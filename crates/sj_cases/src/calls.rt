//! Calls of the program, over sources and sinks in memory.
use sj_base::{MemSink, MemSource, NoMemory};
use sj_lane::{Links, MemLinks, RingLinks};
use sj_tool::sj;
use sj_work::{Gate, NoGate};
use std::alloc::Global;
use std::process::Abort;
use std::test::Fail;
use std::thread::Threads;

pub(crate) const USAGE: &str =
    "usage: sj check | show | sim | run [--log] [--looks N] | replay [--log] | make N | big N\n";

// The pieces, one after the other.
pub(crate) fn joined(alloc: Global, pieces: &[&[u8]]) -> Result<Vec<u8>, NoMemory> {
    let mut text = Vec::new(alloc);
    for piece in pieces {
        text.extend_from_slice(piece)?;
    }
    Ok(text)
}

// A source of the bytes, which fails at the reads that are listed.
pub(crate) fn source(alloc: Global, bytes: &[u8], fail: &[u64]) -> Result<MemSource, NoMemory> {
    Ok(MemSource::new(
        Vec::from_slice(alloc, bytes)?,
        Vec::from_slice(alloc, fail)?,
    ))
}

// A sink with room for each text of the tests, which fails at the writes that are listed.
pub(crate) fn sink(alloc: Global, fail: &[u64]) -> Result<MemSink, NoMemory> {
    MemSink::new(alloc, 1_000_000, Vec::from_slice(alloc, fail)?)
}

// The status of a call with these words.
pub(crate) fn call<R: Threads + Sync, L: Links, G: Gate>(
    rt: &R,
    alloc: Global,
    words: &[&str],
    src: &mut MemSource,
    out: &mut MemSink,
    links: &mut L,
    gate: &G,
) -> Result<u8, NoMemory> {
    let mut all = Vec::new(alloc);
    for word in words {
        all.push(String::from_str(alloc, word)?)?;
    }
    Ok(sj(rt, alloc, &all, src, out, links, gate))
}

// The status that comes of the words and the bytes over these links, past this gate, and what is
// written.
pub(crate) fn answer_past<R: Threads + Sync, L: Links, G: Gate>(
    rt: &R,
    alloc: Global,
    words: &[&str],
    bytes: &[u8],
    links: &mut L,
    gate: &G,
) -> Result<(u8, MemSink), NoMemory> {
    let mut src = source(alloc, bytes, &[])?;
    let mut out = sink(alloc, &[])?;
    let status = call(rt, alloc, words, &mut src, &mut out, links, gate)?;
    Ok((status, out))
}

// The same past no gate.
pub(crate) fn answer_over<R: Threads + Sync, L: Links>(
    rt: &R,
    alloc: Global,
    words: &[&str],
    bytes: &[u8],
    links: &mut L,
) -> Result<(u8, MemSink), NoMemory> {
    answer_past(rt, alloc, words, bytes, links, &NoGate)
}

// The same over rings.
pub(crate) fn answer<R: Threads + Sync>(
    rt: &R,
    alloc: Global,
    words: &[&str],
    bytes: &[u8],
) -> Result<(u8, MemSink), NoMemory> {
    answer_over(rt, alloc, words, bytes, &mut RingLinks::new())
}

// Over these links the words and bytes give this status, and this is written.
pub(crate) fn expect_over<R: Abort + Threads + Sync, L: Links>(
    rt: &R,
    alloc: Global,
    words: &[&str],
    bytes: &[u8],
    links: &mut L,
    wanted: (u8, &[u8]),
) -> Result<(), Fail> {
    let (status, out) = answer_over(rt, alloc, words, bytes, links)?;
    assert_eq!(rt; out.text(), wanted.1, "{words:?}");
    assert_eq!(rt; status, wanted.0, "{words:?}");
    Ok(())
}

// Over rings and over lists they do.
pub(crate) fn expect<R: Abort + Threads + Sync>(
    rt: &R,
    alloc: Global,
    words: &[&str],
    bytes: &[u8],
    wanted: (u8, &[u8]),
) -> Result<(), Fail> {
    expect_over(rt, alloc, words, bytes, &mut RingLinks::new(), wanted)?;
    expect_over(rt, alloc, words, bytes, &mut MemLinks::new(), wanted)
}
