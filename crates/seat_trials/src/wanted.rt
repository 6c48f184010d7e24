//! The transcript that a run must have whose codes go by the file.

use crate::ends::{first_open, told_ends};
use crate::file::party_count;
use crate::written::Written;
use sj_base::NoMemory;
use sj_lang::File;
use sj_plain::Plain;
use sj_print::print_standing;
use sj_semantics::State;
use sj_told::Stand;
use std::alloc::Global;

/// The most connections of a file.
const MOST: usize = 64;

/// How the party stands at the end of the plain world. One that code plays has its calls as steps,
/// and waits at the first of its open ends.
fn stand(
    alloc: Global,
    file: &File,
    plain: &Plain,
    party: u16,
    code: Option<&Written>,
) -> Result<Option<Stand>, NoMemory> {
    if usize::from(party) >= plain.parties() {
        return Ok(None);
    }
    let steps = plain.steps(party);
    let Some(code) = code else {
        let state = plain.state(party);
        return Ok(Some(Stand { steps, state }));
    };
    let state = match first_open(alloc, file, plain, party)? {
        Some(end) => State::Waits(end),
        None => State::Ended,
    };
    let steps = steps.saturating_sub(code.locals);
    Ok(Some(Stand { steps, state }))
}

fn stands(
    alloc: Global,
    file: &File,
    plain: &Plain,
    codes: &[Option<Written>],
) -> Result<Vec<Stand>, NoMemory> {
    let mut stands = Vec::new(alloc);
    for party in 0..party_count(file) {
        let code = match codes.get(usize::from(party)) {
            Some(Some(code)) => Some(code),
            _ => None,
        };
        if let Some(stand) = stand(alloc, file, plain, party, code)? {
            stands.push(stand)?;
        }
    }
    Ok(stands)
}

/// The messages of the plain world, and how the parties stand, as a transcript.
pub(crate) fn wanted(
    alloc: Global,
    file: &File,
    plain: &Plain,
    codes: &[Option<Written>],
) -> Result<Option<Vec<u8>>, NoMemory> {
    let ends = told_ends(alloc, file, plain)?;
    let stands = stands(alloc, file, plain, codes)?;
    let connects = file.connects.len();
    if connects > MOST || ends.len() != 2 * connects || stands.len() != file.parties.len() {
        return Ok(None);
    }
    let mut text = Vec::new(alloc);
    print_standing(&mut text, file, &ends, &stands)?;
    Ok(Some(text))
}
