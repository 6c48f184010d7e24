//! Parts of a reply, taken from the front of its tokens.
ghost use Rattle.std.specs.Prelude.{◌≡◌};
ghost use Rattle.sj_streams.specs.Reading.{Reads, count_at, pair_at, word_at, words_in};
ghost use Rattle.sj_streams.specs.Words.{tokens_at, words_at};

use crate::Misread;
use sj_resp::Token;
use std::alloc::Global;
use std::collections::VecDeque;

/// A text.
pub(crate) fn word(tokens: &mut VecDeque<Token>) -> Result<Vec<u8>, Misread>
    ensures { Reads (λ w. w.items) result (tokens_at tokens.new.items) (word_at (tokens_at tokens.old.items)) }
{
    match tokens.pop_front() {
        Some(Token::Bulk(bytes)) => Ok(bytes),
        _ => Err(Misread::Shape),
    }
}

/// The head of an array, with how many parts it has.
pub(crate) fn count(tokens: &mut VecDeque<Token>) -> Result<u32, Misread>
    ensures { Reads (λ n. n) result (tokens_at tokens.new.items) (count_at (tokens_at tokens.old.items)) }
{
    match tokens.pop_front() {
        Some(Token::Array(n)) => Ok(n),
        _ => Err(Misread::Shape),
    }
}

/// The head of an array of two parts.
#[tactic(auto, unfolding(crate::specs::Reading::pair_at))]
pub(crate) fn pair(tokens: &mut VecDeque<Token>) -> Result<(), Misread>
    ensures { Reads (λ u. u) result (tokens_at tokens.new.items) (pair_at (tokens_at tokens.old.items)) }
{
    let n = match count(tokens) {
        Ok(n) => n,
        Err(e) => return Err(e),
    };
    if n == 2 { Ok(()) } else { Err(Misread::Shape) }
}

/// So many texts.
pub(crate) fn words(
    alloc: Global,
    tokens: &mut VecDeque<Token>,
    count: u32,
) -> Result<Vec<Vec<u8>>, Misread>
    ensures { Reads (λ ws. words_at ws.items) result (tokens_at tokens.new.items) (words_in count (tokens_at tokens.old.items)) }
{
    let mut words = Vec::new(alloc);
    for _ in 0..count {
        match word(tokens) {
            Ok(text) => words.push(text)?,
            Err(e) => return Err(e),
        }
    }
    Ok(words)
}
