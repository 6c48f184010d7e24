//! What is known at a fault of the grammar, and what was meant.

use crate::bounds::put_bound;
use crate::edits::{edit_of, put_edit, put_shown};
use crate::hints::{Around, byte_form, form_of};
use crate::marks::Scanned;
use sj_base::NoMemory;
use sj_proto::{Fault, Rule};
use sj_text::put;
use sj_wanted::{MOST_FRONT, put_wanted};
use std::alloc::Global;

/// Lines on what stands there, what may stand there, and what was meant. None come where there is
/// nothing to say.
pub(crate) fn put_syntax(
    alloc: Global,
    text: &mut Vec<u8>,
    scanned: &Scanned<'_>,
    fault: Fault,
) -> Result<(), NoMemory> {
    let at = scanned.index_at(fault.line, fault.column);
    match fault.rule {
        Rule::P1 => put_not_due(alloc, text, scanned, at),
        Rule::P2 => {
            let rest = scanned.rest_at(fault.line, fault.column);
            put_meant(text, byte_form(rest))
        }
        Rule::P4 => put_bound(text, scanned, at),
        _ => Ok(()),
    }
}

fn put_not_due(
    alloc: Global,
    text: &mut Vec<u8>,
    scanned: &Scanned<'_>,
    at: usize,
) -> Result<(), NoMemory> {
    put(text, b"there: ")?;
    let here = scanned.spelled(at);
    if here.is_empty() {
        put(text, b"the file ends")?;
    } else {
        put_shown(text, here)?;
        put(text, b" stands")?;
    }
    put(text, b" there\n")?;
    let front = scanned.front(at);
    if front.len() > MOST_FRONT {
        return Ok(());
    }
    let marks = put_wanted(alloc, text, front)?;
    let around = Around {
        scanned,
        at,
        marks: &marks,
    };
    if let Some(said) = form_of(around) {
        return put_meant(text, Some(said));
    }
    match edit_of(alloc, around)? {
        Some(edit) => {
            put(text, b"did you mean ")?;
            put_edit(text, edit, here)?;
            put(text, b"\n")
        }
        None => Ok(()),
    }
}

fn put_meant(text: &mut Vec<u8>, said: Option<&'static [u8]>) -> Result<(), NoMemory> {
    match said {
        Some(said) => {
            put(text, b"did you mean ")?;
            put(text, said)?;
            put(text, b"\n")
        }
        None => Ok(()),
    }
}
