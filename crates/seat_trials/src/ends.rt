//! What the ends of a plain world sent, and who holds them.

use sj_base::{EndId, Msg, NoMemory};
use sj_lang::File;
use sj_plain::Plain;
use sj_told::ToldEnd;
use std::alloc::Global;

/// How many connections the file has.
pub(crate) fn connections(file: &File) -> u32 {
    match u32::try_from(file.connects.len()) {
        Ok(count) => count,
        Err(_) => 0,
    }
}

/// The ends of the connections, with what they sent and who took it.
pub(crate) fn told_ends(
    alloc: Global,
    file: &File,
    plain: &Plain,
) -> Result<Vec<ToldEnd>, NoMemory> {
    let mut ends = Vec::new(alloc);
    for sess in 0..connections(file) {
        let first = told_end(alloc, plain, EndId { sess, side: 0 })?;
        let second = told_end(alloc, plain, EndId { sess, side: 1 })?;
        ends.push(first)?;
        ends.push(second)?;
    }
    Ok(ends)
}

fn told_end(alloc: Global, plain: &Plain, end: EndId) -> Result<ToldEnd, NoMemory> {
    Ok(ToldEnd {
        sent: Vec::from_slice(alloc, plain.sent(end))?,
        takers: Vec::from_slice(alloc, plain.takers(end))?,
    })
}

/// The first by name of the ends that the party holds and of which anything is ahead.
pub(crate) fn first_open(
    alloc: Global,
    file: &File,
    plain: &Plain,
    party: u16,
) -> Result<Option<EndId>, NoMemory> {
    for sess in 0..connections(file) {
        for side in 0..2 {
            let end = EndId { sess, side };
            if is_open(alloc, plain, end)? && holds(file, plain, party, end) {
                return Ok(Some(end));
            }
        }
    }
    Ok(None)
}

// Whether anything is ahead of the end.
fn is_open(alloc: Global, plain: &Plain, end: EndId) -> Result<bool, NoMemory> {
    if end.sess as usize >= plain.sessions() {
        return Ok(false);
    }
    let place = plain.place(alloc, end)?;
    Ok(!place.items.is_empty())
}

/// Whether the connection gives the end to the party.
pub(crate) fn is_first_holder(file: &File, party: u16, end: EndId) -> bool {
    let Some(connect) = file.connects.get(end.sess as usize) else {
        return false;
    };
    let decl = if end.side == 0 {
        connect.first
    } else {
        connect.second
    };
    match file.parties.get(usize::from(party)) {
        Some(party) => party.name == decl.party,
        None => false,
    }
}

// Whether the party has the end: it came as often as it went, and at last it came.
fn holds(file: &File, plain: &Plain, party: u16, end: EndId) -> bool {
    let mut came = u32::from(is_first_holder(file, party, end));
    let mut went = 0u32;
    for sess in 0..connections(file) {
        for side in 0..2 {
            let carrier = EndId { sess, side };
            came = came.saturating_add(took(plain, party, carrier, end));
            went = went.saturating_add(gave(plain, party, carrier, end));
        }
    }
    came > went
}

fn names(msg: Msg, end: EndId) -> bool {
    match msg {
        Msg::Sess { sess, side, .. } => end == EndId { sess, side },
        _ => false,
    }
}

// How often the party sent the end on the carrier.
fn gave(plain: &Plain, party: u16, carrier: EndId, end: EndId) -> u32 {
    let mut count = 0u32;
    for passed in plain.sent(carrier) {
        if passed.by == party && names(passed.msg, end) {
            count = count.saturating_add(1);
        }
    }
    count
}

// How often the party took the end that was sent on the carrier.
fn took(plain: &Plain, party: u16, carrier: EndId, end: EndId) -> u32 {
    let takers = plain.takers(carrier);
    let mut count = 0u32;
    let mut at = 0usize;
    for passed in plain.sent(carrier) {
        if takers.get(at).copied() == Some(party) && names(passed.msg, end) {
            count = count.saturating_add(1);
        }
        at = at.saturating_add(1);
    }
    count
}
