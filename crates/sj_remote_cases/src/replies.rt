//! Replies, as a server spells them.

use crate::standing::{Entry, Standing};
use crate::words::{number_in, place_of, word, word_count};
use sj_base::NoMemory;
use sj_resp::{Token, put_word};
use sj_text::{put, put_number};
use std::collections::VecDeque;

/// The head of an array.
fn put_array(out: &mut Vec<u8>, count: u64) -> Result<(), NoMemory> {
    put(out, b"*")?;
    put_number(out, count)?;
    put(out, b"\r\n")
}

/// The name of the entry of that number.
fn spell_name(name: &mut Vec<u8>, number: u64) -> Result<(), NoMemory> {
    put_number(name, number)?;
    put(name, b"-0")
}

/// The name of the entry of that number, as a text.
pub(crate) fn put_name(out: &mut Vec<u8>, number: u64) -> Result<(), NoMemory> {
    let mut name = Vec::new(*out.allocator());
    spell_name(&mut name, number)?;
    put_word(out, &name)
}

/// An entry: its name and its words.
fn put_entry(out: &mut Vec<u8>, entry: &Entry) -> Result<(), NoMemory> {
    put_array(out, 2)?;
    put_name(out, entry.number)?;
    put_array(out, entry.words.len() as u64)?;
    for word in &entry.words {
        put_word(out, word)?;
    }
    Ok(())
}

/// The entries after that number, at most so many. Answers how many.
fn put_entries(
    out: &mut Vec<u8>,
    entries: &[Entry],
    seen: u64,
    most: u64,
) -> Result<u64, NoMemory> {
    let mut count: u64 = 0;
    for entry in entries {
        if entry.number > seen && count < most {
            put_entry(out, entry)?;
            count = count.saturating_add(1);
        }
    }
    Ok(count)
}

/// A key, and so many entries.
fn put_keyed(out: &mut Vec<u8>, key: &[u8], count: u64, entries: &[u8]) -> Result<(), NoMemory> {
    put_array(out, 2)?;
    put_word(out, key)?;
    put_array(out, count)?;
    put(out, entries)
}

/// The entries after that number, at most so many, and the key before them. Answers whether there
/// are some; else nothing is put.
fn put_stream(
    out: &mut Vec<u8>,
    key: &[u8],
    entries: &[Entry],
    seen: u64,
    most: u64,
) -> Result<bool, NoMemory> {
    let mut body = Vec::new(*out.allocator());
    let count = put_entries(&mut body, entries, seen, most)?;
    if count > 0 {
        put_keyed(out, key, count, &body)?;
    }
    Ok(count > 0)
}

/// What comes of the streams that an `XREAD` names, after the entries that were seen. Answers of how
/// many streams something comes.
fn put_streams(
    out: &mut Vec<u8>,
    standing: &Standing,
    command: &VecDeque<Token>,
) -> Result<u64, NoMemory> {
    let most = number_in(word(command, 2));
    let first = place_of(command, b"STREAMS").saturating_add(1);
    let keys = word_count(command).saturating_sub(first) / 2;
    let mut count: u64 = 0;
    for i in 0..keys {
        let at = first.saturating_add(i);
        let key = word(command, at);
        let seen = number_in(word(command, at.saturating_add(keys)));
        if put_stream(out, key, standing.entries(key), seen, most)? {
            count = count.saturating_add(1);
        }
    }
    Ok(count)
}

/// So many streams, or a null where there is none: the server in memory doesn't wait.
fn put_counted(out: &mut Vec<u8>, count: u64, streams: &[u8]) -> Result<(), NoMemory> {
    if count == 0 {
        return put(out, b"*-1\r\n");
    }
    put_array(out, count)?;
    put(out, streams)
}

/// The reply to an `XREAD`.
pub(crate) fn put_came(
    out: &mut Vec<u8>,
    standing: &Standing,
    command: &VecDeque<Token>,
) -> Result<(), NoMemory> {
    let mut streams = Vec::new(*out.allocator());
    let count = put_streams(&mut streams, standing, command)?;
    put_counted(out, count, &streams)
}
