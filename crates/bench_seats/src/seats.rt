//! Messages between two seats.

use crate::clocks::{nanos_since, now};
use crate::file::{Kind, MESSAGES, file_of};
use crate::player::Player;
use crate::timed::Timed;
use sj_check::Accepted;
use sj_lane::RingLinks;
use sj_seat_run::{run_seated, text_count};
use sj_work::NoGate;
use std::alloc::Global;
use std::thread::Threads;
use std::time::Clock;

/// How many turns of the loop one run has at most. A party makes at most 10,000 calls in a run, and
/// a turn has one for each message and one for the loop.
const TURNS: u32 = 98;

/// How many turns in vain a call waits before its party gives its time away. They are as many
/// instructions as the tries by hand.
const LOOKS: u32 = 45;

/// One run of so many turns. The times are that of the whole run, and that which the taker played.
fn one_run<R: Threads + Clock + Sync>(
    rt: &R,
    alloc: Global,
    accepted: &Accepted,
    kind: Kind,
    turns: u32,
) -> Option<Timed> {
    let mut codes = Vec::new(alloc);
    codes.push(Some(Player::new(rt, kind, true, turns))).ok()?;
    codes.push(Some(Player::new(rt, kind, false, turns))).ok()?;
    let began = now(rt);
    let mut links = RingLinks::new();
    let texts = text_count(accepted.file());
    let Ok(run) = run_seated(
        rt, alloc, accepted, codes, texts, LOOKS, &mut links, &NoGate,
    ) else {
        return None;
    };
    let whole = nanos_since(rt, &began);
    match run.codes.get(1) {
        Some(Some(taker)) => Some(Timed {
            messages: taker.count,
            whole,
            played: taker.nanos,
        }),
        _ => None,
    }
}

/// So many messages, or as many more as fill the last turn of the loop, in as many runs as there
/// must be.
pub(crate) fn by_seats<R: Threads + Clock + Sync>(
    rt: &R,
    alloc: Global,
    kind: Kind,
    messages: u32,
) -> Option<Timed> {
    let accepted = file_of(alloc, kind)?;
    let mut left = messages.div_ceil(MESSAGES);
    let runs = left.div_ceil(TURNS);
    let mut all = Timed::nothing();
    for _ in 0..runs {
        let turns = left.min(TURNS);
        let one = one_run(rt, alloc, &accepted, kind, turns)?;
        all.add(&one);
        left = left.saturating_sub(turns);
    }
    Some(all)
}
