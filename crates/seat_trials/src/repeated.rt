//! The calls of random codes, made again.

use crate::again::{Again, done_of};
use crate::held::hold_the_same;
use crate::history::tells;
use crate::runs::{Ended, run};
use crate::said::opens;
use crate::why::Why;
use crate::wild::Wild;
use sj_base::NoMemory;
use sj_check::Accepted;
use sj_lane::RingLinks;
use sj_seats::SeatedWorld;
use std::alloc::Global;
use std::thread::Threads;

/// How many turns in vain a call waits that is made again.
const LOOKS: u32 = 100;

// The codes that make the same calls.
fn again_of(alloc: Global, codes: &[Option<Wild>]) -> Result<Vec<Option<Again>>, NoMemory> {
    let mut again = Vec::new(alloc);
    for code in codes {
        match code {
            Some(code) => again.push(Some(Again::new(alloc, done_of(alloc, &code.log)?)))?,
            None => again.push(None)?,
        }
    }
    Ok(again)
}

// Whether the history tells of each party the calls that are made again.
fn are_told(world: &SeatedWorld, codes: &[Option<Again>]) -> bool {
    let mut party: u16 = 0;
    for code in codes {
        if let Some(code) = code {
            if !tells(world.history(), party, &code.calls) {
                return false;
            }
        }
        party = party.saturating_add(1);
    }
    true
}

// Whether a code opened a session. Made again, such calls could wait for ever.
fn any_opened(codes: &[Option<Wild>]) -> bool {
    for code in codes {
        if let Some(code) = code {
            for asked in &code.log {
                if opens(*asked) {
                    return true;
                }
            }
        }
    }
    false
}

// What was bad of the codes that made the calls again, if anything.
fn bad_in(codes: &[Option<Again>]) -> Option<Why> {
    for code in codes {
        if let Some(code) = code {
            if let Some(why) = code.verdict() {
                return Some(why);
            }
        }
    }
    None
}

/// The history tells the calls. Made again they leave the same, which isn't tried where a session was
/// opened.
pub(crate) fn made_again<R: Threads + Sync>(
    rt: &R,
    alloc: Global,
    accepted: &Accepted,
    ended: &Ended<Wild>,
) -> Result<(), Why> {
    let Ok(codes) = again_of(alloc, &ended.codes) else {
        return Err(Why::NoMemory);
    };
    if !are_told(&ended.world, &codes) {
        return Err(Why::History);
    }
    if any_opened(&ended.codes) {
        return Ok(());
    }
    let again = run(rt, alloc, accepted, codes, LOOKS, &mut RingLinks::new())?;
    if let Some(why) = bad_in(&again.codes) {
        return Err(why);
    }
    if again.text.as_deref() != ended.text.as_deref() {
        return Err(Why::Transcript);
    }
    if !hold_the_same(&ended.world, &again.world) {
        return Err(Why::Ends);
    }
    Ok(())
}
