//! How much a file has of what codes ask for.

use crate::dice::Dice;
use crate::ends::connections;
use crate::file::party_count;
use sj_lang::{File, Words};

/// How many words, texts and sessions a file has.
#[derive(Clone, Copy)]
pub(crate) struct Sizes {
    pub words: u32,
    pub texts: u32,
    pub sessions: u32,
    pub parties: u16,
}

impl Sizes {
    pub fn of(file: &File) -> Sizes {
        Sizes {
            words: count_of(&file.names.words),
            texts: count_of(&file.names.texts),
            sessions: connections(file),
            parties: party_count(file),
        }
    }
}

fn count_of(words: &Words) -> u32 {
    for number in 0..u32::from(u16::MAX) {
        if words.get(number as usize).is_none() {
            return number;
        }
    }
    0
}

/// A number that is at times past the last one.
pub(crate) fn number(dice: &mut Dice, many: u32) -> u32 {
    dice.below(many.saturating_add(2))
}

/// The number of a word.
pub(crate) fn word(number: u32) -> u16 {
    match u16::try_from(number) {
        Ok(word) => word,
        Err(_) => u16::MAX,
    }
}
