//! What is accepted and surely not meant: loops whose number of turns is known and cut.

use crate::counts::{Count, Known, count_of};
use sj_base::NoMemory;
use sj_lang::{Deed, File, Stmt};
use sj_text::{put, put_int, put_number};
use std::alloc::Global;

/// The most turns of a loop.
const MOST_TURNS: i64 = 1_000;

/// A line for each loop of which that is known, in the order of the file.
pub(crate) fn put_warnings(alloc: Global, text: &mut Vec<u8>, file: &File) -> Result<(), NoMemory> {
    let mut lines = Vec::new(alloc);
    for party in &file.parties {
        let mut known = Known::new(alloc);
        block(alloc, &mut lines, &mut known, &party.body)?;
    }
    if lines.is_empty() {
        return Ok(());
    }
    put(text, b"\n")?;
    put(text, &lines)
}

#[cycle(warning)]
fn block(
    alloc: Global,
    text: &mut Vec<u8>,
    known: &mut Known,
    stmts: &[Stmt],
) -> Result<(), NoMemory> {
    for stmt in stmts {
        statement(alloc, text, known, stmt)?;
    }
    Ok(())
}

#[cycle(warning)]
fn statement(
    alloc: Global,
    text: &mut Vec<u8>,
    known: &mut Known,
    stmt: &Stmt,
) -> Result<(), NoMemory> {
    match &stmt.deed {
        Deed::OutWhile { count, body, .. } => {
            put_warning(text, stmt.line, count_of(known, count))?;
            turns(alloc, text, known, body)
        }
        Deed::InWhile { body, .. } => turns(alloc, text, known, body),
        Deed::Relay { body, .. } => turns(alloc, text, known, body),
        Deed::If { yes, no, .. } => {
            let mut other = known.copy(alloc)?;
            block(alloc, text, known, yes)?;
            block(alloc, text, &mut other, no)?;
            known.keep_common(&other);
            Ok(())
        }
        Deed::Branch { arms, .. } => {
            let before = known.copy(alloc)?;
            let mut left = None;
            for arm in arms {
                let mut inner = before.copy(alloc)?;
                block(alloc, text, &mut inner, &arm.body)?;
                left = Some(match left {
                    Some(earlier) => common(earlier, &inner),
                    None => inner,
                });
            }
            if let Some(left) = left {
                *known = left;
            }
            Ok(())
        }
        Deed::Let { name, value } => {
            let count = count_of(known, value);
            known.set(*name, count)
        }
        Deed::Take { into, .. } => {
            known.forget(*into);
            Ok(())
        }
        _ => Ok(()),
    }
}

fn common(known: Known, other: &Known) -> Known {
    let mut known = known;
    known.keep_common(other);
    known
}

// A body that is done any number of times: what it sets isn't known in it, nor after it.
#[cycle(warning)]
fn turns(
    alloc: Global,
    text: &mut Vec<u8>,
    known: &mut Known,
    body: &[Stmt],
) -> Result<(), NoMemory> {
    forget_set(known, body);
    let mut inner = known.copy(alloc)?;
    block(alloc, text, &mut inner, body)
}

#[cycle(forgetting)]
fn forget_set(known: &mut Known, stmts: &[Stmt]) {
    for stmt in stmts {
        match &stmt.deed {
            Deed::Let { name, .. } => known.forget(*name),
            Deed::Take { into, .. } => known.forget(*into),
            Deed::OutWhile { body, .. } => forget_set(known, body),
            Deed::InWhile { body, .. } => forget_set(known, body),
            Deed::Relay { body, .. } => forget_set(known, body),
            Deed::If { yes, no, .. } => {
                forget_set(known, yes);
                forget_set(known, no);
            }
            Deed::Branch { arms, .. } => {
                for arm in arms {
                    forget_set(known, &arm.body);
                }
            }
            _ => {}
        }
    }
}

fn put_warning(text: &mut Vec<u8>, line: u32, count: Option<Count>) -> Result<(), NoMemory> {
    let Some(count) = count else {
        return Ok(());
    };
    if count.wrapped {
        put_line(text, line)?;
        put(text, b"the loop's count wraps to ")?;
        put_int(text, count.value)?;
        put_cut(text, count.value)
    } else if count.value < 0 || count.value > MOST_TURNS {
        put_line(text, line)?;
        put(text, b"the loop's count is ")?;
        put_int(text, count.value)?;
        put_cut(text, count.value)
    } else {
        Ok(())
    }
}

// What becomes of such a count.
fn put_cut(text: &mut Vec<u8>, value: i64) -> Result<(), NoMemory> {
    if value <= 0 {
        put(text, b", so it has 0 turns\n")
    } else if value > MOST_TURNS {
        put(text, b", and it is cut to 1000 turns\n")
    } else {
        put(text, b"\n")
    }
}

fn put_line(text: &mut Vec<u8>, line: u32) -> Result<(), NoMemory> {
    put(text, b"warning line ")?;
    put_number(text, u64::from(line))?;
    put(text, b": ")
}
