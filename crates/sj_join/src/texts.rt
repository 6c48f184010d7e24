//! The lines of streams.
ghost use Rattle.std.specs.Prelude.{◌≡◌, ◌<◌, ◌++◌, ℕ, IfErr, IfOk, OnOk, length, map, true};
ghost use Rattle.std.specs.List.{flat_map, list_all};
ghost use Rattle.sj_streams.specs.Views.{came_view};
ghost use Rattle.sj_streams.specs.Words.{words_at};
ghost use Rattle.sj_join.specs.Texts.{LackLines, LacksLines, has_all, has_all_if, has_lines, lines_at, text_by, texts_by};

use crate::JoinRefusal;
use sj_base::NoMemory;
use sj_streams::{Came, lines_of};
use sj_text::put;
use std::alloc::Global;

fn has_lines(words: &[Vec<u8>]) -> bool
    ensures { result ≡ has_lines (words_at words.now) }
{
    lines_of(words).is_some()
}

// Whether each of the entries has lines.
fn have_lines(entries: &[Vec<Vec<u8>>]) -> bool
    ensures { result ≡ list_all (λ e. has_lines (words_at e.items)) entries.now }
{
    entries.iter().all(|words| has_lines(words))
}

// The lines of an entry; none where it has none.
fn put_entry(text: &mut Vec<u8>, words: &[Vec<u8>]) -> Result<(), NoMemory>
    ensures { OnOk result (text.new.items ≡ text.old.items ++ lines_at (words_at words.now)) }
{
    match lines_of(words) {
        Some(lines) => put(text, lines),
        None => Ok(()),
    }
}

// The lines of the entries one after another.
fn put_entries(text: &mut Vec<u8>, entries: &[Vec<Vec<u8>>]) -> Result<(), NoMemory>
    ensures { OnOk result (text.new.items
        ≡ text.old.items ++ flat_map lines_at (map (λ e. words_at e.items) entries.now)) }
{
    for words in entries {
        put_entry(text, words)?;
    }
    Ok(())
}

// Whether each of the entries that came has lines, if they are of the party's stream.
#[tactic(auto, using(crate::proofs::RangeLemmas::views))]
fn has_all_if(party: u16, came: &Came) -> bool
    ensures { result ≡ has_all_if party (came_view came.now) }
{
    came.stream != usize::from(party) || have_lines(&came.entries)
}

// Whether each entry that came of the party's stream has lines.
fn has_all(party: u16, came: &[Came]) -> bool
    ensures { result ≡ list_all (λ c. has_all_if party (came_view c)) came.now }
{
    for one in came {
        if !has_all_if(party, one) {
            return false;
        }
    }
    true
}

// The lines of what came of the party's stream.
#[tactic(auto, using(crate::proofs::RangeLemmas::views))]
fn text_of(alloc: Global, party: u16, came: &[Came]) -> Result<Vec<u8>, JoinRefusal>
    ensures lines { IfOk result (λ text. text.items ≡ text_by (map came_view came.now) party) }
    ensures all { OnOk result (has_all (map came_view came.now) party ≡ true) }
    ensures lacks { IfErr result (LacksLines (map came_view came.now) party) }
{
    if !has_all(party, came) {
        return Err(JoinRefusal::NoLines { party });
    }
    let mut text = Vec::new(alloc);
    for stream in came {
        if stream.stream == usize::from(party) {
            put_entries(&mut text, &stream.entries)?;
        }
    }
    Ok(text)
}

/// The lines of each of so many parties.
#[tactic(auto, using(crate::proofs::RangeLemmas::text_counts))]
pub fn texts_of(alloc: Global, parties: u16, came: &[Came]) -> Result<Vec<Vec<u8>>, JoinRefusal>
    ensures count { IfOk result (λ texts. length texts.items ≡ parties) }
    ensures lines { IfOk result (λ texts. map (λ t. t.items) texts.items ≡ texts_by (map came_view came.now) parties) }
    ensures all { OnOk result ((party : ℕ) → party < parties → has_all (map came_view came.now) party ≡ true) }
    ensures lacks { IfErr result (LackLines (map came_view came.now) parties) }
{
    let mut texts = Vec::new(alloc);
    for party in 0..parties {
        texts.push(text_of(alloc, party, came)?)?;
    }
    Ok(texts)
}
