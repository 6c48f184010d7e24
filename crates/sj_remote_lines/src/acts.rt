//! The line that does an act.

use crate::names::{name_of, new_name};
use sj_base::{EndId, Msg, NoMemory};
use sj_end::Note;
use sj_lang::File;
use sj_print::print_message;
use sj_seat::{Opening, Openings};
use sj_seat_lines::Name;
use sj_text::put;
use std::alloc::Global;

/// What a line may name: words of the file, the ends that the party holds, and the sessions that it may
/// open.
#[derive(Clone, Copy)]
pub(crate) struct Known<'a> {
    pub(crate) file: &'a File,
    pub(crate) names: &'a [Name],
    pub(crate) may: &'a Openings,
}

/// The line that does the act of that note. None where no line does: it is no act of a code, or the
/// party may open sessions of several protocols with that other one, of which the note has none.
pub(crate) fn line_of(
    alloc: Global,
    known: Known<'_>,
    did: &Note,
) -> Result<Option<Vec<u8>>, NoMemory> {
    let mut line = Vec::new(alloc);
    let is_line = put_line(alloc, &mut line, known, did)?;
    Ok(if is_line { Some(line) } else { None })
}

fn put_line(
    alloc: Global,
    line: &mut Vec<u8>,
    known: Known<'_>,
    did: &Note,
) -> Result<bool, NoMemory> {
    let names = known.names;
    match *did {
        Note::Sent { end, msg } => put_sent(alloc, line, known, end, msg)?,
        Note::Took { end, msg } => put_take(alloc, line, names, end, msg)?,
        Note::Shut { end } => put_words(line, &[b"close", name_of(names, end)])?,
        Note::Request { sess, to } => {
            let end = EndId { sess, side: 0 };
            let of = protocol_with(&known.may.requests, to);
            return put_opening(alloc, line, known, &[b"request", b"to"], end, of, to);
        }
        Note::Accept { sess, from } => {
            let end = EndId { sess, side: 1 };
            let of = protocol_with(&known.may.accepts, from);
            return put_opening(alloc, line, known, &[b"accept", b"from"], end, of, from);
        }
        _ => return Ok(false),
    }
    Ok(true)
}

/// Puts the words, with spaces between.
fn put_words(line: &mut Vec<u8>, words: &[&[u8]]) -> Result<(), NoMemory> {
    for at in 0..words.len() {
        if at > 0 {
            put(line, b" ")?;
        }
        put(line, words[at])?;
    }
    Ok(())
}

fn put_sent(
    alloc: Global,
    line: &mut Vec<u8>,
    known: Known<'_>,
    end: EndId,
    msg: Msg,
) -> Result<(), NoMemory> {
    let name = name_of(known.names, end);
    match msg {
        Msg::Sess { sess, side, .. } => {
            let sent = name_of(known.names, EndId { sess, side });
            put_words(line, &[b"delegate", name, sent])
        }
        Msg::More(more) => put_words(line, &[if more { b"more" } else { b"stop" }, name]),
        _ => {
            let verb: &[u8] = if matches!(msg, Msg::Label(_)) {
                b"select"
            } else {
                b"send"
            };
            let mut message = Vec::new(alloc);
            print_message(&mut message, known.file, &msg)?;
            put_words(line, &[verb, name, after_space(&message)])
        }
    }
}

/// What stands after the first space: a value without its kind.
fn after_space(message: &[u8]) -> &[u8] {
    for at in 0..message.len() {
        if message[at] == b' ' {
            return &message[at + 1..];
        }
    }
    message
}

/// An end that is taken gets a new name.
fn put_take(
    alloc: Global,
    line: &mut Vec<u8>,
    names: &[Name],
    end: EndId,
    msg: Msg,
) -> Result<(), NoMemory> {
    let name = name_of(names, end);
    match msg {
        Msg::Sess { sess, side, .. } => {
            let own = new_name(alloc, names, EndId { sess, side })?;
            put_words(line, &[b"take", name, &own])
        }
        _ => put_words(line, &[b"take", name]),
    }
}

/// The protocol of the sessions that may be opened with that party, where it is one alone.
fn protocol_with(openings: &[Opening], party: u16) -> Option<u16> {
    let mut found = None;
    for opening in openings {
        if opening.party == party {
            match found {
                Some(protocol) if protocol != opening.protocol => return None,
                _ => found = Some(opening.protocol),
            }
        }
    }
    found
}

/// The party's own end gets a new name.
fn put_opening(
    alloc: Global,
    line: &mut Vec<u8>,
    known: Known<'_>,
    words: &[&[u8]; 2],
    end: EndId,
    of: Option<u16>,
    with: u16,
) -> Result<bool, NoMemory> {
    let (Some(protocol), Some(party)) = (of, known.file.parties.get(usize::from(with))) else {
        return Ok(false);
    };
    let all = &known.file.names.words;
    let (Some(protocol), Some(party)) = (
        all.get(usize::from(protocol)),
        all.get(usize::from(party.name)),
    ) else {
        return Ok(false);
    };
    let own = new_name(alloc, known.names, end)?;
    put_words(line, &[words[0], &own, protocol, words[1], party])?;
    Ok(true)
}
