//! A line of a text with the words in question underlined.

use crate::marks::Stretch;
use sj_base::NoMemory;
use sj_text::{put, put_number};
use std::alloc::Global;

/// The most bytes of a line that are shown, and how many stand before the words in question.
const WIDTH: usize = 120;

const BEFORE: usize = 60;

const RED: &[u8] = b"\x1b[1;31m";

const PLAIN: &[u8] = b"\x1b[0m";

/// The line of the first stretch with both underlined, and in a colour where that is asked for.
pub(crate) fn put_quoted(
    alloc: Global,
    text: &mut Vec<u8>,
    source: &[u8],
    coloured: bool,
    first: Stretch,
    other: Option<Stretch>,
) -> Result<(), NoMemory> {
    let lines = lines_in(alloc, source)?;
    let n = (first.line as usize).saturating_sub(1);
    let Some(line) = lines.get(n) else {
        return Ok(());
    };
    let from = if line.len() > WIDTH {
        (first.column as usize).saturating_sub(BEFORE)
    } else {
        0
    };
    let to = line.len().min(from.saturating_add(WIDTH));
    put(text, b"\n  ")?;
    put_number(text, u64::from(first.line))?;
    put(text, b" | ")?;
    put(text, line.get(from..to).unwrap_or(b""))?;
    put(text, b"\n  ")?;
    put_blanks(text, digits(first.line))?;
    put(text, b" | ")?;
    if coloured {
        put(text, RED)?;
    }
    put_marks(text, line, from, first, other)?;
    if coloured {
        put(text, PLAIN)?;
    }
    put(text, b"\n")
}

fn lines_in(alloc: Global, source: &[u8]) -> Result<Vec<&[u8]>, NoMemory> {
    Ok(source.split(|b| *b == b'\n').collect(alloc)?)
}

fn put_blanks(text: &mut Vec<u8>, n: usize) -> Result<(), NoMemory> {
    for _ in 0..n {
        put(text, b" ")?;
    }
    Ok(())
}

// How many digits the number has; the most lines are 65,537.
fn digits(n: u32) -> usize {
    match n {
        0..=9 => 1,
        10..=99 => 2,
        100..=999 => 3,
        1000..=9999 => 4,
        _ => 5,
    }
}

// Signs below the two stretches, up to the last of them; a tab stands below a tab.
fn put_marks(
    text: &mut Vec<u8>,
    line: &[u8],
    from: usize,
    first: Stretch,
    other: Option<Stretch>,
) -> Result<(), NoMemory> {
    let last = match other {
        Some(other) if other.line == first.line => last_of(first).max(last_of(other)),
        _ => last_of(first),
    };
    for i in from..last {
        if is_marked(i, first, other) {
            put(text, b"^")?;
        } else if line.get(i) == Some(&b'\t') {
            put(text, b"\t")?;
        } else {
            put(text, b" ")?;
        }
    }
    Ok(())
}

fn first_of(stretch: Stretch) -> usize {
    (stretch.column as usize).saturating_sub(1)
}

fn last_of(stretch: Stretch) -> usize {
    first_of(stretch).saturating_add(stretch.length)
}

fn is_marked(i: usize, first: Stretch, other: Option<Stretch>) -> bool {
    if first_of(first) <= i && i < last_of(first) {
        return true;
    }
    match other {
        Some(other) => { other.line == first.line && first_of(other) <= i && i < last_of(other) }
        None => false,
    }
}
