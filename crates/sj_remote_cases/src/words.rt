//! The words of a command, and what they name. A command is the head of an array, and then its words.

use sj_base::NoMemory;
use sj_grammar::is;
use sj_resp::Token;
use std::alloc::Global;
use std::collections::VecDeque;

/// How many words the command has.
pub(crate) fn word_count(command: &VecDeque<Token>) -> usize {
    command.len().saturating_sub(1)
}

/// The word at that place; none of the words is empty.
pub(crate) fn word(command: &VecDeque<Token>, at: usize) -> &[u8] {
    match command.get(at.saturating_add(1)) {
        Some(Token::Bulk(word)) => word,
        _ => b"",
    }
}

/// The words from that place on.
pub(crate) fn words_from(
    alloc: Global,
    command: &VecDeque<Token>,
    first: usize,
) -> Result<Vec<Vec<u8>>, NoMemory> {
    let mut words = Vec::new(alloc);
    for at in first..word_count(command) {
        words.push(Vec::from_slice(alloc, word(command, at))?)?;
    }
    Ok(words)
}

/// Those words, as an entry has them.
pub(crate) fn words_of(alloc: Global, texts: &[&[u8]]) -> Result<Vec<Vec<u8>>, NoMemory> {
    let mut words = Vec::new(alloc);
    for text in texts {
        words.push(Vec::from_slice(alloc, text)?)?;
    }
    Ok(words)
}

/// The number with which the word begins: that of the entry `n-0` is n.
pub(crate) fn number_in(word: &[u8]) -> u64 {
    let mut number: u64 = 0;
    for &byte in word {
        if !byte.is_ascii_digit() {
            break;
        }
        number = number
            .saturating_mul(10)
            .saturating_add(u64::from(byte.wrapping_sub(b'0')));
    }
    number
}

/// Where that word is the first time, or how many words there are.
pub(crate) fn place_of(command: &VecDeque<Token>, wanted: &[u8]) -> usize {
    for at in 0..word_count(command) {
        if is(word(command, at), wanted) {
            return at;
        }
    }
    word_count(command)
}
