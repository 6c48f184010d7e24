//! The file on standard input, and what it names.
ghost use Rattle.std.specs.Prelude.{◌<◌, IfSome, length};
ghost use Rattle.sj_check.specs.Held.{file_in};
ghost use Rattle.sj_lang.specs.FileView.{file_of};

use sj_base::{Source, read_all};
use sj_check::{Accepted, check};
use sj_party::parse_file;
use sj_proto::Tokens;
use std::alloc::Global;

/// The accepted file that the source gives.
pub(crate) fn accepted_in<S: Source>(alloc: Global, src: &mut S) -> Option<Accepted> {
    let Ok(text) = read_all(alloc, src, Tokens::MOST_BYTES) else {
        return None;
    };
    let Ok(file) = parse_file(alloc, &text) else {
        return None;
    };
    match check(alloc, file) {
        Ok(accepted) => Some(accepted),
        Err(_) => None,
    }
}

/// The number of the party of that name.
pub(crate) fn party_named(accepted: &Accepted, name: &[u8]) -> Option<u16>
    ensures { IfSome result (λ p. p < length (file_of (file_in accepted.now)).parties) }
{
    let file = accepted.file();
    for party in 0..file.parties.len() {
        if file.names.words.get(usize::from(file.parties[party].name)) == Some(name) {
            return Some(party as u16);
        }
    }
    None
}

/// The number of the text in the file, or one that no text has.
pub(crate) fn text_named(accepted: &Accepted, text: &[u8]) -> u32 {
    match accepted.file().names.texts.find(text) {
        Some(number) => u32::try_from(number).unwrap_or(u32::MAX),
        None => u32::MAX,
    }
}

/// The number of the word in the file, or one that no word has.
pub(crate) fn word_named(accepted: &Accepted, word: &[u8]) -> u16 {
    match accepted.file().names.words.find(word) {
        Some(number) => u16::try_from(number).unwrap_or(u16::MAX),
        None => u16::MAX,
    }
}
