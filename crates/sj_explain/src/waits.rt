//! How an accepted file ends, and who waits for whom.

use crate::holders::{holder, name_of, other_end, party_count};
use crate::pieces::Piece::{End, Number, Place, Said, Word};
use crate::pieces::put_pieces;
use sj_base::{EndId, NoMemory};
use sj_lang::File;
use sj_plain::Plain;
use sj_semantics::{State, Verdict};
use sj_text::put;
use std::alloc::Global;

/// A party that waits, and for whom.
#[derive(Clone, Copy)]
pub(crate) struct Wait {
    pub party: u16,
    /// None where nobody has what it waits for.
    pub on: Option<u16>,
    pub cause: Cause,
}

/// For what a party waits.
#[derive(Clone, Copy)]
pub(crate) enum Cause {
    /// For a message on this end.
    Message(EndId),
    /// For a session that would be opened to it.
    Session,
}

/// The parties that wait, in file order.
pub(crate) fn waits_of(alloc: Global, file: &File, plain: &Plain) -> Result<Vec<Wait>, NoMemory> {
    let mut waits = Vec::new(alloc);
    for party in 0..party_count(plain) {
        match plain.state(party) {
            State::Waits(end) => {
                let on = holder(file, plain, other_end(end));
                let cause = Cause::Message(end);
                waits.push(Wait { party, on, cause })?;
            }
            State::WaitsOpen(from) => {
                let cause = Cause::Session;
                waits.push(Wait {
                    party,
                    on: Some(from),
                    cause,
                })?;
            }
            _ => {}
        }
    }
    Ok(waits)
}

/// The verdict, and where the file blocks who waits for whom.
pub(crate) fn put_ending(
    alloc: Global,
    text: &mut Vec<u8>,
    file: &File,
    plain: &Plain,
) -> Result<(), NoMemory> {
    match plain.verdict() {
        Verdict::Done => put(text, b"\nends done: each party comes to its end\n"),
        Verdict::Long => put(text, b"\nends long: a party comes to a limit\n"),
        Verdict::Blocked => {
            put(
                text,
                b"\nends blocked: nobody can go on, and this is who waits for whom\n",
            )?;
            put_waits(alloc, text, file, plain)?;
            put_unaccepted(alloc, text, file, plain)
        }
    }
}

fn put_waits(
    alloc: Global,
    text: &mut Vec<u8>,
    file: &File,
    plain: &Plain,
) -> Result<(), NoMemory> {
    let waits = waits_of(alloc, file, plain)?;
    if waits.is_empty() {
        return Ok(());
    }
    put(text, b"\n")?;
    put_chains(alloc, text, file, plain, &waits)?;
    put(text, b"\n")?;
    for wait in &waits {
        put_wait(alloc, text, file, plain, *wait)?;
    }
    Ok(())
}

// Each party that waits, once, with arrows to those for whom it waits.
fn put_chains(
    alloc: Global,
    text: &mut Vec<u8>,
    file: &File,
    plain: &Plain,
    waits: &[Wait],
) -> Result<(), NoMemory> {
    let mut shown = Vec::new(alloc);
    for wait in waits {
        if !is_awaited(waits, wait.party) {
            put_chain(alloc, text, file, plain, waits, *wait, &mut shown)?;
        }
    }
    for wait in waits {
        if !shown.contains(&wait.party) {
            put_chain(alloc, text, file, plain, waits, *wait, &mut shown)?;
        }
    }
    Ok(())
}

fn is_awaited(waits: &[Wait], party: u16) -> bool {
    waits.iter().any(|w| w.on == Some(party))
}

fn wait_of(waits: &[Wait], party: u16) -> Option<Wait> {
    for wait in waits {
        if wait.party == party {
            return Some(*wait);
        }
    }
    None
}

// From a party on, up to one that was shown before or waits for nobody.
fn put_chain(
    alloc: Global,
    text: &mut Vec<u8>,
    file: &File,
    plain: &Plain,
    waits: &[Wait],
    first: Wait,
    shown: &mut Vec<u16>,
) -> Result<(), NoMemory> {
    put(text, b"  ")?;
    put_party(alloc, text, file, first.party)?;
    let mut next = Some(first);
    for _ in waits {
        let Some(wait) = next else {
            break;
        };
        shown.push(wait.party)?;
        put(text, b" --")?;
        put_cause(alloc, text, file, plain, wait.cause)?;
        put(text, b"--> ")?;
        next = match wait.on {
            Some(on) => {
                put_party(alloc, text, file, on)?;
                if shown.contains(&on) {
                    None
                } else {
                    wait_of(waits, on)
                }
            }
            None => {
                put(text, b"nobody")?;
                None
            }
        };
    }
    put(text, b"\n")
}

fn put_party(alloc: Global, text: &mut Vec<u8>, file: &File, party: u16) -> Result<(), NoMemory> {
    match file.parties.get(party as usize) {
        Some(party) => put_pieces(alloc, text, &file.names, &[Word(party.name)]),
        None => Ok(()),
    }
}

/// The end on which a party waits, by its name or its number, or `accept`.
pub(crate) fn put_cause(
    alloc: Global,
    text: &mut Vec<u8>,
    file: &File,
    plain: &Plain,
    cause: Cause,
) -> Result<(), NoMemory> {
    match cause {
        Cause::Message(end) => match name_of(file, plain, end) {
            Some(name) => put_pieces(alloc, text, &file.names, &[Word(name)]),
            None => put_pieces(alloc, text, &file.names, &[End(end)]),
        },
        Cause::Session => put(text, b"accept"),
    }
}

// What a party waits for, and what is ahead of its end.
fn put_wait(
    alloc: Global,
    text: &mut Vec<u8>,
    file: &File,
    plain: &Plain,
    wait: Wait,
) -> Result<(), NoMemory> {
    put(text, b"  ")?;
    put_party(alloc, text, file, wait.party)?;
    match wait.cause {
        Cause::Message(end) => {
            put(text, b" takes from ")?;
            put_cause(alloc, text, file, plain, wait.cause)?;
            if (end.sess as usize) < plain.sessions() {
                let place = plain.place(alloc, end)?;
                let pieces = [Said(b", ahead of it "), Place(&place)];
                put_pieces(alloc, text, &file.names, &pieces)?;
            }
        }
        Cause::Session => put(text, b" accepts a session that isn't requested")?,
    }
    if wait.party < party_count(plain) {
        let steps = u64::from(plain.steps(wait.party));
        let pieces = [Said(b"; steps so far: "), Number(steps)];
        put_pieces(alloc, text, &file.names, &pieces)?;
    }
    put(text, b"\n")
}

// Sessions that were opened and that nobody accepted.
fn put_unaccepted(
    alloc: Global,
    text: &mut Vec<u8>,
    file: &File,
    plain: &Plain,
) -> Result<(), NoMemory> {
    for opened in plain.opened() {
        if opened.second.is_none() {
            put(text, b"  ")?;
            put_party(alloc, text, file, opened.to)?;
            let pieces = [
                Said(b" doesn't accept session "),
                Number(u64::from(opened.sess)),
                Said(b", which is requested by "),
            ];
            put_pieces(alloc, text, &file.names, &pieces)?;
            put_party(alloc, text, file, opened.from)?;
            put(text, b"\n")?;
        }
    }
    Ok(())
}
