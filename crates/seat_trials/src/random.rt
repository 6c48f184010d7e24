//! Random codes: at each party in turn, and at several at once.

use crate::dice::Dice;
use crate::file::party_count;
use crate::repeated::made_again;
use crate::runs::run;
use crate::sizes::Sizes;
use crate::spoken::spoken;
use crate::why::{Tally, Why};
use crate::wild::Wild;
use sj_base::NoMemory;
use sj_check::Accepted;
use sj_lane::Links;
use sj_lang::File;
use std::alloc::Global;
use std::thread::Threads;

/// How much a code asks for at most, beside what waits.
const MOST: u32 = 400;

// How often random code is answered that it waits before it leaves.
fn some_patience(dice: &mut Dice) -> u32 {
    match dice.below(4) {
        0 => 1,
        1 => 30,
        _ => 500,
    }
}

// How many turns in vain calls of random code wait.
fn few_looks(dice: &mut Dice) -> u32 {
    match dice.below(5) {
        0 => 0,
        1 => 1,
        2 => 4,
        3 => 16,
        _ => 200,
    }
}

// The codes: one for that party, or for each as it falls where there is no party of that number.
fn codes_of(
    alloc: Global,
    file: &File,
    dice: &mut Dice,
    seat: u16,
    seed: u64,
) -> Result<Vec<Option<Wild>>, NoMemory> {
    let count = party_count(file);
    let mut codes = Vec::new(alloc);
    for party in 0..count {
        if seat == party || seat >= count && !dice.is_one_of(3) {
            let own = Dice::new(seed, u64::from(party).saturating_add(1));
            let left = dice.below(MOST);
            let patience = some_patience(dice);
            let code = Wild::new(alloc, own, Sizes::of(file), left, patience);
            codes.push(Some(code))?;
        } else {
            codes.push(None)?;
        }
    }
    Ok(codes)
}

// What the codes found bad, if anything.
fn bad_in(codes: &[Option<Wild>]) -> Option<Why> {
    for code in codes {
        if let Some(code) = code {
            if code.bad.is_some() {
                return code.bad;
            }
        }
    }
    None
}

// How many calls were done and how many refused.
fn count_calls(codes: &[Option<Wild>], tally: &mut Tally) {
    for code in codes {
        if let Some(code) = code {
            for asked in &code.log {
                if asked.answer.is_ok() {
                    tally.done = tally.done.saturating_add(1);
                } else {
                    tally.refused = tally.refused.saturating_add(1);
                }
            }
        }
    }
}

// A run, and all that must be so of it.
fn one<R: Threads + Sync, L: Links>(
    rt: &R,
    alloc: Global,
    text: &[u8],
    accepted: &Accepted,
    seat: u16,
    seed: u64,
    links: &mut L,
    tally: &mut Tally,
) -> Result<(), Why> {
    let mut dice = Dice::new(seed, 0);
    let Ok(codes) = codes_of(alloc, accepted.file(), &mut dice, seat, seed) else {
        return Err(Why::NoMemory);
    };
    let looks = few_looks(&mut dice);
    let ended = run(rt, alloc, accepted, codes, looks, links)?;
    count_calls(&ended.codes, tally);
    if let Some(why) = bad_in(&ended.codes) {
        return Err(why);
    }
    made_again(rt, alloc, accepted, &ended)?;
    match ended.codes.get(usize::from(seat)) {
        Some(Some(code)) => spoken(alloc, text, accepted, seat, &code.log),
        _ => Ok(()),
    }
}

/// So many runs, with the seeds from that one on.
pub(crate) fn random_runs<R: Threads + Sync, L: Links>(
    rt: &R,
    alloc: Global,
    text: &[u8],
    accepted: &Accepted,
    count: u32,
    seed: u64,
    links: &mut L,
    tally: &mut Tally,
) {
    let seats = u64::from(party_count(accepted.file())).saturating_add(1);
    for number in 0..count {
        let own = seed.saturating_add(u64::from(number));
        let seat = match u16::try_from(own % seats.max(1)) {
            Ok(seat) => seat,
            Err(_) => 0,
        };
        match one(rt, alloc, text, accepted, seat, own, links, tally) {
            Ok(()) => tally.count(None),
            Err(why) => tally.count(Some(why)),
        }
    }
}
