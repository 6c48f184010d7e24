//! Replies without parts, and why a server refuses a command.
ghost use Rattle.std.specs.Prelude.{◌≡◌, option_map};
ghost use Rattle.sj_streams.specs.Answers.{begins_so, failure_at, number_at, refusal_named, text_at, well_at};
ghost use Rattle.sj_streams.specs.Reading.{Reads};
ghost use Rattle.sj_streams.specs.Words.{tokens_at};

use crate::Misread;
use sj_grammar::is;
use sj_resp::Token;
use std::collections::VecDeque;
use thiserror::Error;

/// Why a server refuses a command.
#[derive(Clone, Copy, Debug, PartialEq, Eq, Error)]
pub enum Refusal {
    /// An entry of that number stands, or a later one.
    #[error("an entry of that number stands")]
    Late,
    /// It wants a password, or another one.
    #[error("password refused")]
    Password,
    /// It has no memory for it.
    #[error("the server's memory is full")]
    Full,
    /// It doesn't serve now.
    #[error("the server doesn't serve now")]
    Away,
    #[error("server error")]
    Other,
}

/// Whether the line begins with the word.
fn begins(line: &[u8], word: &[u8]) -> bool
    ensures { result ≡ begins_so word.now line.now }
{
    let n = word.len().min(line.len());
    is(&line[..n], word)
}

/// What the error of a server means.
#[tactic(auto, unfolding(crate::specs::Answers::refusal_named))]
pub fn refusal_of(line: &[u8]) -> Refusal
    ensures { result ≡ refusal_named line.now }
{
    if begins(line, b"ERR The ID specified in XADD is equal or smaller") {
        return Refusal::Late;
    }
    if begins(line, b"NOAUTH") || begins(line, b"WRONGPASS") {
        return Refusal::Password;
    }
    if begins(line, b"OOM") {
        return Refusal::Full;
    }
    if begins(line, b"LOADING") || begins(line, b"READONLY") || begins(line, b"MASTERDOWN") {
        return Refusal::Away;
    }
    Refusal::Other
}

/// Why the server refused the command to which this is the reply; none where it didn't.
pub fn refused(tokens: &VecDeque<Token>) -> Option<Refusal>
    ensures { result ≡ option_map refusal_named (failure_at (tokens_at tokens.now.items)) }
{
    match tokens.front() {
        Some(Token::Failed(line)) => Some(refusal_of(line)),
        _ => None,
    }
}

/// A text; none where there is none under that name.
pub fn read_text(tokens: &mut VecDeque<Token>) -> Result<Option<Vec<u8>>, Misread>
    ensures { Reads (λ text. option_map (λ t. t.items) text) result (tokens_at tokens.new.items) (text_at (tokens_at tokens.old.items)) }
{
    match tokens.pop_front() {
        Some(Token::Bulk(text)) => Ok(Some(text)),
        Some(Token::Null) => Ok(None),
        _ => Err(Misread::Shape),
    }
}

/// A number.
pub fn read_number(tokens: &mut VecDeque<Token>) -> Result<i64, Misread>
    ensures { Reads (λ n. n) result (tokens_at tokens.new.items) (number_at (tokens_at tokens.old.items)) }
{
    match tokens.pop_front() {
        Some(Token::Int(n)) => Ok(n),
        _ => Err(Misread::Shape),
    }
}

/// That a command went well.
pub fn read_well(tokens: &mut VecDeque<Token>) -> Result<(), Misread>
    ensures { Reads (λ u. u) result (tokens_at tokens.new.items) (well_at (tokens_at tokens.old.items)) }
{
    match tokens.pop_front() {
        Some(Token::Simple(_)) => Ok(()),
        _ => Err(Misread::Shape),
    }
}
