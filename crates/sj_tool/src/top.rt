//! The top call: from the words and the input to the output.
ghost use Rattle.std.specs.Prelude.{◌≡◌};
ghost use Rattle.sj_tool.specs.Answered.{HasAnswered, own, sink};
ghost use Rattle.sj_tool.specs.Calls.{call};

use crate::inputs::answer_to;
use sj_base::{NoMemory, Sink, Source, WriteFault, write_all_of};
use sj_lane::Links;
use sj_text::{NO_MEMORY, WRITE_FAULT};
use sj_work::Gate;
use std::alloc::Global;
use std::thread::Threads;

/// Does what the words say with the input, writes the answer's text, and answers its status.
///
/// The words are those after the program's name. The text is built whole before any is written.
///
/// `run` runs the parties of a file over the links, each on a thread of its own where the runtime
/// gives one. It shows each event of theirs to the gate. `run --forward` runs them on the caller's
/// thread.
///
/// What is promised is one record, with a field for each promise: `HasAnswered`, specs/Answered.
pub fn sj<R: Threads + Sync, S: Source, K: Sink, L: Links, G: Gate>(
    rt: &R,
    alloc: Global,
    words: &[String],
    src: &mut S,
    out: &mut K,
    links: &mut L,
    gate: &G,
) -> u8
    ensures { HasAnswered (own L.Out.OutLane L.In.InLane L.joined (links.new ≡ links.old) (S.has_ended src.new))
        (call S.Source L.Links words.now src.old src.new links.old links.new) result
        (sink K.written K.faults out.old) (sink K.written K.faults out.new) }
{
    let answer = match answer_to(rt, alloc, words, src, links, gate) {
        Ok(answer) => answer,
        Err(NoMemory) => return NO_MEMORY,
    };
    let status = answer.status();
    let text = match answer.into_text(alloc) {
        Ok(text) => text,
        Err(NoMemory) => return NO_MEMORY,
    };
    match write_all_of(out, &text) {
        Ok(()) => status,
        Err(WriteFault) => WRITE_FAULT,
    }
}
