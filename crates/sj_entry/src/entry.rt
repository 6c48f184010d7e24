//! From a program's call to the top call.
ghost use Rattle.std.specs.Prelude.{◌≡◌};
ghost use Rattle.sj_entry.specs.Entered.{Enters};
ghost use Rattle.sj_tool.specs.Answered.{own, sink};
ghost use Rattle.sj_tool.specs.Calls.{call};

use crate::words::Caller;
use sj_base::{NoMemory, Sink, Source};
use sj_lane::Links;
use sj_tool::{NO_MEMORY, sj};
use sj_work::Gate;
use std::thread::Threads;

/// Does what the words after the program's name say, and answers the status of the top call.
///
/// Of the system's words no clause says which they are.
pub fn enter<C: Caller + AllocGlobal, R: Threads + Sync, S: Source, K: Sink, L: Links, G: Gate>(
    caller: &C,
    rt: &R,
    src: &mut S,
    out: &mut K,
    links: &mut L,
    gate: &G,
) -> u8
    ensures answer { Enters (own L.Out.OutLane L.In.InLane L.joined (links.new ≡ links.old) (S.has_ended src.new))
        (C.gives caller.now) (λ words. call S.Source L.Links words src.old src.new links.old links.new) result
        (sink K.written K.faults out.old) (sink K.written K.faults out.new) }
{
    match caller.words() {
        Ok(words) => sj(rt, caller.alloc(), &words, src, out, links, gate),
        Err(NoMemory) => NO_MEMORY,
    }
}
