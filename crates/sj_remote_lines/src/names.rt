//! Names of ends, for lines that nobody wrote.

use sj_base::{EndId, NoMemory};
use sj_seat_lines::Name;
use sj_text::{put, put_number};
use std::alloc::Global;

/// The name of the end; `?` where it has none.
pub(crate) fn name_of(names: &[Name], end: EndId) -> &[u8] {
    for own in names {
        if own.end == end {
            return own.name.as_slice();
        }
    }
    b"?"
}

/// Whether an end has that name.
fn is_used(names: &[Name], name: &[u8]) -> bool {
    for own in names {
        if own.name.as_slice() == name {
            return true;
        }
    }
    false
}

/// A name for an end that comes: `e`, its session, `_` and its side, and one `x` more for each end that
/// has that name.
pub(crate) fn new_name(alloc: Global, names: &[Name], end: EndId) -> Result<Vec<u8>, NoMemory> {
    let mut name = Vec::new(alloc);
    put(&mut name, b"e")?;
    put_number(&mut name, u64::from(end.sess))?;
    put(&mut name, b"_")?;
    put_number(&mut name, u64::from(end.side))?;
    for _ in 0..names.len() {
        if !is_used(names, &name) {
            return Ok(name);
        }
        put(&mut name, b"x")?;
    }
    Ok(name)
}
