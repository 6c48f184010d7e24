//! Changes of one token after which the text goes on.

use crate::hints::Around;
use crate::near::{is_elsewhere, is_near};
use sj_base::NoMemory;
use sj_text::put;
use sj_wanted::{SHOWN, TOKENS, goes_on};
use std::alloc::Global;

/// What one token changed makes of the text.
#[derive(Clone, Copy)]
pub(crate) enum Edit {
    /// That reserved word in place of what stands there.
    Word(&'static [u8]),
    /// That one before it.
    Before(&'static [u8]),
    /// It is left out.
    Without,
    /// That one in place of it.
    Instead(&'static [u8]),
}

/// The change with which the text goes on, if one does; a near word comes first.
pub(crate) fn edit_of(alloc: Global, around: Around<'_>) -> Result<Option<Edit>, NoMemory> {
    if let Some(word) = near_word(around) {
        return Ok(Some(Edit::Word(word)));
    }
    let here = around.ahead(0);
    let next = around.ahead(1);
    let later = around.ahead(2);
    if let Some(shown) = only_one(alloc, around, here, next)? {
        return Ok(Some(Edit::Before(shown)));
    }
    if here.is_empty() {
        return Ok(None);
    }
    if goes_on(alloc, around.front(), &[next, later])? {
        return Ok(Some(Edit::Without));
    }
    match only_one(alloc, around, next, later)? {
        Some(shown) => Ok(Some(Edit::Instead(shown))),
        None => Ok(None),
    }
}

// The first reserved word that may stand there and is near to what does.
fn near_word(around: Around<'_>) -> Option<&'static [u8]> {
    let here = around.ahead(0);
    for (word, mark) in SHOWN.iter().zip(around.marks.iter()) {
        if *mark && is_long_word(word) && (is_near(here, word) || is_elsewhere(here, word)) {
            return Some(*word);
        }
    }
    None
}

fn is_long_word(word: &[u8]) -> bool {
    match word {
        [first, _, ..] => first.is_ascii_lowercase() || word == b"String".as_slice(),
        _ => false,
    }
}

// The one token, as it is shown, after which the text goes on with these two; None where several
// are such.
fn only_one(
    alloc: Global,
    around: Around<'_>,
    next: &[u8],
    later: &[u8],
) -> Result<Option<&'static [u8]>, NoMemory> {
    let mut found = None;
    for (i, token) in TOKENS.iter().enumerate() {
        if around.marks.get(i) == Some(&true)
            && !token.is_empty()
            && goes_on(alloc, around.front(), &[token, next, later])?
        {
            if found.is_some() {
                return Ok(None);
            }
            found = SHOWN.get(i).copied();
        }
    }
    Ok(found)
}

/// The words of a change, after `did you mean `.
pub(crate) fn put_edit(text: &mut Vec<u8>, edit: Edit, here: &[u8]) -> Result<(), NoMemory> {
    match edit {
        Edit::Word(word) => put_token(text, word)?,
        Edit::Before(shown) => {
            put_token(text, shown)?;
            if !here.is_empty() {
                put(text, b" before ")?;
                put_shown(text, here)?;
            }
        }
        Edit::Without => {
            put(text, b"to leave out ")?;
            put_shown(text, here)?;
        }
        Edit::Instead(shown) => {
            put_token(text, shown)?;
            put(text, b" in place of ")?;
            put_shown(text, here)?;
        }
    }
    put(text, b"?")
}

// A token of the table, by its name where it stands for all of its sort.
fn put_token(text: &mut Vec<u8>, shown: &[u8]) -> Result<(), NoMemory> {
    if shown == b"NAME".as_slice() {
        put(text, b"a name")
    } else if shown == b"NUMBER".as_slice() {
        put(text, b"a number")
    } else if shown == b"TEXT".as_slice() {
        put(text, b"a text")
    } else {
        put_shown(text, shown)
    }
}

/// The most bytes of a token that are shown.
const MOST_SHOWN: usize = 40;

/// A token of a file, cut where it is long.
pub(crate) fn put_shown(text: &mut Vec<u8>, token: &[u8]) -> Result<(), NoMemory> {
    put(text, b"`")?;
    match token.get(..MOST_SHOWN) {
        Some(front) if token.len() > MOST_SHOWN => {
            put(text, front)?;
            put(text, b"..")?;
        }
        _ => put(text, token)?,
    }
    put(text, b"`")
}
