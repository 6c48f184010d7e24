//! Accepted files, and the text of lines.
use sj_check::{Accepted, check};
use sj_end::Line;
use sj_lang::File;
use sj_party::parse_file;
use sj_print::print_line;
use std::alloc::Global;
use std::test::Fail;

// The file of this text, which is accepted.
pub(crate) fn accepted(alloc: Global, text: &[u8]) -> Result<Accepted, Fail> {
    match accepted_in(alloc, text) {
        Some(accepted) => Ok(accepted),
        None => Err(Fail::from("no accepted file")),
    }
}

// The file of this text, where it is accepted.
pub(crate) fn accepted_in(alloc: Global, text: &[u8]) -> Option<Accepted> {
    if text.len() > 65_536 {
        return None;
    }
    let Ok(file) = parse_file(alloc, text) else {
        return None;
    };
    match check(alloc, file) {
        Ok(accepted) => Some(accepted),
        Err(_) => None,
    }
}

// The lines of the party, as a log prints them.
pub(crate) fn log_of(
    alloc: Global,
    file: &File,
    party: u16,
    lines: &[Line],
) -> Result<Vec<u8>, Fail> {
    let mut text = Vec::new(alloc);
    for line in lines {
        if line.party == party {
            print_line(&mut text, file, line)?;
        }
    }
    Ok(text)
}
