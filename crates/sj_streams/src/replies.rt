//! What came of streams.
ghost use Rattle.std.specs.Prelude.{◌≡◌, ◌<◌, ◌+◌, ℕ, ◌^◌, get_or, length, map, IfOk};
ghost use Rattle.sj_streams.specs.Reading.{Reads, came_at, entry_at, known_at, many_at, place_in, stream_at};
ghost use Rattle.sj_streams.specs.Views.{came_view};
ghost use Rattle.sj_streams.specs.Words.{tokens_at, words_at};

use crate::Misread;
use crate::keys::id;
use crate::parts::{count, pair, word, words};
use sj_grammar::is;
use sj_resp::Token;
use std::alloc::Global;
use std::collections::VecDeque;

/// What came of one stream: which of those that were asked for, the number of its first new entry,
/// and the words of each entry from that one on.
#[derive(Drop)]
pub struct Came {
    pub stream: usize,
    pub first: u64,
    pub entries: Vec<Vec<Vec<u8>>>,
}

/// The entry of that number.
#[tactic(auto, unfolding(crate::specs::Reading::entry_at))]
fn entry(alloc: Global, tokens: &mut VecDeque<Token>, number: u64) -> Result<Vec<Vec<u8>>, Misread>
    ensures { Reads (λ ws. words_at ws.items) result (tokens_at tokens.new.items) (entry_at number (tokens_at tokens.old.items)) }
{
    if let Err(e) = pair(tokens) {
        return Err(e);
    }
    let name = match word(tokens) {
        Ok(name) => name,
        Err(e) => return Err(e),
    };
    let wanted = id(alloc, number)?;
    if !is(&name, &wanted) {
        return Err(Misread::Gap);
    }
    let parts = match count(tokens) {
        Ok(parts) => parts,
        Err(e) => return Err(e),
    };
    words(alloc, tokens, parts)
}

/// So many entries, from that number on.
fn entries(
    alloc: Global,
    tokens: &mut VecDeque<Token>,
    first: u64,
    count: u32,
) -> Result<Vec<Vec<Vec<u8>>>, Misread>
    requires { first < 2 ^ 63 }
    ensures { Reads (λ es. map (λ e. words_at e.items) es.items) result (tokens_at tokens.new.items)
        (many_at entry_at first count (tokens_at tokens.old.items)) }
{
    let mut all = Vec::new(alloc);
    for i in 0..count {
        match entry(alloc, tokens, first + u64::from(i)) {
            Ok(words) => all.push(words)?,
            Err(e) => return Err(e),
        }
    }
    Ok(all)
}

/// The first of the keys that is this one, or how many there are.
#[tactic(auto, unfolding(crate::specs::Reading::place_in))]
fn place_of(keys: &[Vec<u8>], key: &[u8]) -> usize
    ensures { result ≡ place_in key.now (words_at keys.now) }
{
    let mut i = 0;
    while i < keys.len() && !is(&keys[i], key) {
        i += 1;
    }
    i
}

/// The entries of that stream.
#[tactic(auto, unfolding(crate::specs::Reading::known_at))]
fn known(
    alloc: Global,
    tokens: &mut VecDeque<Token>,
    keys: &[Vec<u8>],
    seen: &[u64],
    stream: usize,
) -> Result<Came, Misread>
    requires same { length seen.now ≡ length keys.now }
    requires few { (i : ℕ) → get_or seen.now i 0 + 1 < 2 ^ 63 }
    ensures { Reads came_view result (tokens_at tokens.new.items)
        (known_at (words_at keys.now) seen.now stream (tokens_at tokens.old.items)) }
{
    if stream >= keys.len() {
        return Err(Misread::Key);
    }
    let first = seen[stream] + 1;
    let parts = match count(tokens) {
        Ok(parts) => parts,
        Err(e) => return Err(e),
    };
    match entries(alloc, tokens, first, parts) {
        Ok(entries) => Ok(Came {
            stream,
            first,
            entries,
        }),
        Err(e) => Err(e),
    }
}

/// What came of one stream.
#[tactic(auto, unfolding(crate::specs::Reading::stream_at))]
fn stream(
    alloc: Global,
    tokens: &mut VecDeque<Token>,
    keys: &[Vec<u8>],
    seen: &[u64],
) -> Result<Came, Misread>
    requires same { length seen.now ≡ length keys.now }
    requires few { (i : ℕ) → get_or seen.now i 0 + 1 < 2 ^ 63 }
    ensures { Reads came_view result (tokens_at tokens.new.items)
        (stream_at (words_at keys.now) seen.now (tokens_at tokens.old.items)) }
{
    if let Err(e) = pair(tokens) {
        return Err(e);
    }
    let key = match word(tokens) {
        Ok(key) => key,
        Err(e) => return Err(e),
    };
    let place = place_of(keys, &key);
    known(alloc, tokens, keys, seen, place)
}

/// What came of so many streams.
fn streams(
    alloc: Global,
    tokens: &mut VecDeque<Token>,
    keys: &[Vec<u8>],
    seen: &[u64],
    count: u32,
) -> Result<Vec<Came>, Misread>
    requires same { length seen.now ≡ length keys.now }
    requires few { (i : ℕ) → get_or seen.now i 0 + 1 < 2 ^ 63 }
    ensures { Reads (λ cs. map came_view cs.items) result (tokens_at tokens.new.items)
        (many_at (λ _. stream_at (words_at keys.now) seen.now) 0 count (tokens_at tokens.old.items)) }
{
    let mut all = Vec::new(alloc);
    for _ in 0..count {
        match stream(alloc, tokens, keys, seen) {
            Ok(came) => all.push(came)?,
            Err(e) => return Err(e),
        }
    }
    Ok(all)
}

/// What a read of these streams brought, each after the last entry that was seen of it. Nothing came
/// where the reply is a null.
#[tactic(auto, unfolding(crate::specs::Reading::came_at))]
pub fn read_came(
    alloc: Global,
    tokens: &mut VecDeque<Token>,
    keys: &[Vec<u8>],
    seen: &[u64],
) -> Result<Vec<Came>, Misread>
    requires same { length seen.now ≡ length keys.now }
    requires few { (i : ℕ) → get_or seen.now i 0 + 1 < 2 ^ 63 }
    ensures { Reads (λ cs. map came_view cs.items) result (tokens_at tokens.new.items)
        (came_at (words_at keys.now) seen.now (tokens_at tokens.old.items)) }
{
    match tokens.pop_front() {
        Some(Token::Null) => Ok(Vec::new(alloc)),
        Some(Token::Array(count)) if count > 0 => streams(alloc, tokens, keys, seen, count),
        _ => Err(Misread::Shape),
    }
}
