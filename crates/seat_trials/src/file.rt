//! The file of which codes play parties.

ghost use Rattle.std.specs.Prelude.{◌≤◌, length};
ghost use Rattle.sj_lang.specs.FileView.{file_of};

use sj_check::{Accepted, check};
use sj_lang::File;
use sj_party::parse_file;
use sj_proto::Tokens;
use std::alloc::Global;

/// The accepted file that the text is.
pub(crate) fn accepted_in(alloc: Global, text: &[u8]) -> Option<Accepted> {
    if text.len() > Tokens::MOST_BYTES {
        return None;
    }
    let Ok(file) = parse_file(alloc, text) else {
        return None;
    };
    match check(alloc, file) {
        Ok(accepted) => Some(accepted),
        Err(_) => None,
    }
}

/// How many parties the file has.
pub(crate) fn party_count(file: &File) -> u16
    ensures { result ≤ length (file_of file.now).parties }
{
    match u16::try_from(file.parties.len()) {
        Ok(count) => count,
        Err(_) => 0,
    }
}
