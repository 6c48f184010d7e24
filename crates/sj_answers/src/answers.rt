//! One call of `sj`, over a source and a sink in memory.
use sj_base::{MemSink, MemSource, NoMemory};
use sj_lane::Links;
use sj_text::{put, put_number};
use sj_tool::sj;
use sj_work::NoGate;
use std::alloc::Global;
use std::thread::Threads;

/// The most bytes of an answer.
const ROOM: usize = 1_000_000;

/// What a call gives: its status, and what it wrote.
#[derive(Drop)]
pub(crate) struct Answer {
    pub(crate) status: u8,
    out: MemSink,
}

impl Answer {
    pub(crate) fn text(&self) -> &[u8] {
        self.out.text()
    }
}

/// What comes of the words and the bytes over these links.
pub(crate) fn answer_over<R: Threads + Sync, L: Links>(
    rt: &R,
    alloc: Global,
    words: &[String],
    bytes: &[u8],
    links: &mut L,
) -> Result<Answer, NoMemory> {
    let mut src = MemSource::new(Vec::from_slice(alloc, bytes)?, Vec::new(alloc));
    let mut out = MemSink::new(alloc, ROOM, Vec::new(alloc))?;
    let status = sj(rt, alloc, words, &mut src, &mut out, links, &NoGate);
    Ok(Answer { status, out })
}

/// A line `status N`, and the text.
pub(crate) fn put_answer(told: &mut Vec<u8>, answer: &Answer) -> Result<(), NoMemory> {
    put(told, b"status ")?;
    put_number(told, u64::from(answer.status))?;
    put(told, b"\n")?;
    put(told, answer.text())
}
