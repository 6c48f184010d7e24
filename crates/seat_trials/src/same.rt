//! Codes that go by the file's bodies: each party in turn, and all at once.

use crate::file::party_count;
use crate::runs::{Ended, run};
use crate::threads::written_crosses;
use crate::wanted::wanted;
use crate::why::{Tally, Why};
use crate::written::Written;
use sj_base::NoMemory;
use sj_check::Accepted;
use sj_lane::Links;
use sj_plain::Plain;
use sj_print::print_transcript;
use std::alloc::Global;
use std::thread::Threads;

/// How many turns in vain a call waits.
const LOOKS: u32 = 100;

// The file's end, and its transcript.
fn plain_end(alloc: Global, accepted: &Accepted) -> Result<(Plain, Vec<u8>), NoMemory> {
    let mut plain = Plain::start(alloc, accepted)?;
    plain.finish()?;
    let mut text = Vec::new(alloc);
    print_transcript(&mut text, accepted.file(), &plain)?;
    Ok((plain, text))
}

// The codes: that of one party, or those of all where there is no party of that number.
fn codes_of(
    alloc: Global,
    accepted: &Accepted,
    plain: &Plain,
    seat: u16,
) -> Result<Vec<Option<Written>>, NoMemory> {
    let file = accepted.file();
    let count = party_count(file);
    let mut codes = Vec::new(alloc);
    for party in 0..count {
        if usize::from(party) < plain.parties() && (seat == party || seat >= count) {
            let code = Written::start(alloc, file, party, plain.steps(party))?;
            codes.push(Some(code))?;
        } else {
            codes.push(None)?;
        }
    }
    Ok(codes)
}

// What was bad of the codes, if anything.
fn bad_in(codes: &[Option<Written>]) -> Option<Why> {
    for code in codes {
        if let Some(code) = code {
            if let Some(why) = code.verdict() {
                return Some(why);
            }
        }
    }
    None
}

// Whether it was as it must be. Where a session was opened no transcript is looked at.
fn judge(
    alloc: Global,
    accepted: &Accepted,
    plain: &Plain,
    ended: &Ended<Written>,
) -> Result<(), Why> {
    if let Some(why) = bad_in(&ended.codes) {
        return Err(why);
    }
    if !plain.opened().is_empty() {
        return match ended.text {
            None => Ok(()),
            Some(_) => Err(Why::Transcript),
        };
    }
    match wanted(alloc, accepted.file(), plain, &ended.codes) {
        Err(NoMemory) => Err(Why::NoMemory),
        Ok(wanted) => {
            if wanted.is_some() && wanted.as_deref() == ended.text.as_deref() {
                Ok(())
            } else {
                Err(Why::Transcript)
            }
        }
    }
}

// One run.
fn one<R: Threads + Sync, L: Links>(
    rt: &R,
    alloc: Global,
    accepted: &Accepted,
    plain: &Plain,
    seat: u16,
    links: &mut L,
) -> Result<Ended<Written>, Why> {
    let codes = match codes_of(alloc, accepted, plain, seat) {
        Ok(codes) => codes,
        Err(NoMemory) => return Err(Why::NoMemory),
    };
    written_crosses();
    let ended = run(rt, alloc, accepted, codes, LOOKS, links)?;
    judge(alloc, accepted, plain, &ended)?;
    Ok(ended)
}

/// A run for each party, and one for all.
pub(crate) fn each_seat<R: Threads + Sync, L: Links>(
    rt: &R,
    alloc: Global,
    accepted: &Accepted,
    links: &mut L,
    tally: &mut Tally,
) -> Result<(), NoMemory> {
    let (plain, text) = plain_end(alloc, accepted)?;
    let count = party_count(accepted.file());
    for seat in 0..count.saturating_add(1) {
        match one(rt, alloc, accepted, &plain, seat, links) {
            Ok(ended) => {
                if ended.text.as_deref() == Some(text.as_slice()) {
                    tally.plain = tally.plain.saturating_add(1);
                }
                tally.count(None);
            }
            Err(why) => tally.count(Some(why)),
        }
    }
    Ok(())
}
