//! The party that a word names.
ghost use Rattle.std.specs.Prelude.{◌≡◌, ◌<◌, IfNone, IfSome, decimal, length, min, slice_get};
ghost use Rattle.std.specs.Str.{bytes_eq};
ghost use Rattle.sj_lang.specs.FileView.{file_of};
ghost use Rattle.sj_seat_local.specs.Parties.{IsFirst, IsNameOf, IsNone, IsNumberOf, NamesParty, is_word, most_parties};

use itoa::Buffer;
use sj_grammar::is;
use sj_lang::{File, Words};

/// The number of the first party of that name, or else the party of that number.
pub fn party_named(file: &File, word: &[u8]) -> Option<u16>
    ensures party { NamesParty (file_of file.now) word.now result }
    ensures bound { IfSome result (λ p. p < length (file_of file.now).parties) }
{
    match of_name(file, word) {
        Some(party) => Some(party),
        None => of_number(file, word),
    }
}

// How many parties have a number. A file that was read has at most 16.
fn count_of(file: &File) -> u16
    ensures { result ≡ min (length (file_of file.now).parties) most_parties }
{
    match u16::try_from(file.parties.len()) {
        Ok(count) => count,
        Err(_) => u16::MAX,
    }
}

// The first party of that name.
fn of_name(file: &File, word: &[u8]) -> Option<u16>
    ensures some { IfSome result (IsFirst (IsNameOf (file_of file.now) word.now)) }
    ensures none { IfNone result (IsNone (IsNameOf (file_of file.now) word.now) most_parties) }
    ensures bound { IfSome result (λ p. p < length (file_of file.now).parties) }
{
    for party in 0..count_of(file) {
        let name = file.parties[usize::from(party)].name;
        if is_name(&file.names.words, name, word) {
            return Some(party);
        }
    }
    None
}

// Whether the word has that number.
fn is_name(words: &Words, number: u16, word: &[u8]) -> bool
    ensures { result ≡ is_word word.now (slice_get words.now number) }
{
    match words.get(usize::from(number)) {
        Some(name) => is(name, word),
        None => false,
    }
}

// The party of that number.
fn of_number(file: &File, word: &[u8]) -> Option<u16>
    ensures some { IfSome result (IsNumberOf (file_of file.now) word.now) }
    ensures none { IfNone result (IsNone (IsNumberOf (file_of file.now) word.now) most_parties) }
{
    for party in 0..count_of(file) {
        if is_number(word, party) {
            return Some(party);
        }
    }
    None
}

// Whether the word spells the number.
fn is_number(word: &[u8], number: u16) -> bool
    ensures { result ≡ bytes_eq word.now (decimal number) }
{
    is(word, Buffer::new().format(u64::from(number)).as_bytes())
}
