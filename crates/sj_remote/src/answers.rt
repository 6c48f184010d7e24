//! What the tokens of a whole reply answer.
ghost use Rattle.std.specs.Prelude.{◌≡◌, ◌<◌, ◌+◌, ◌^◌, ℕ, get_or, length};
ghost use Rattle.sj_remote.specs.Answers.{MeetsAdded, MeetsRead};
ghost use Rattle.sj_streams.specs.Words.{tokens_at, words_at};

use crate::TalkRefusal;
use sj_resp::Token;
use sj_streams::{Came, Misread, read_came, refused};
use std::alloc::Global;
use std::collections::VecDeque;

/// What a read brought.
pub fn read_streams(
    alloc: Global,
    tokens: VecDeque<Token>,
    keys: &[Vec<u8>],
    seen: &[u64],
) -> Result<Vec<Came>, TalkRefusal>
    requires same { length seen.now ≡ length keys.now }
    requires few { (i : ℕ) → get_or seen.now i 0 + 1 < 2 ^ 63 }
    ensures { MeetsRead result (words_at keys.now) seen.now (tokens_at tokens.items) }
{
    if let Some(refusal) = refused(&tokens) {
        return Err(TalkRefusal::Refused(refusal));
    }
    let mut tokens = tokens;
    match read_came(alloc, &mut tokens, keys, seen) {
        Ok(came) => {
            if tokens.is_empty() {
                Ok(came)
            } else {
                Err(TalkRefusal::NoReply)
            }
        }
        Err(Misread::Gap) => Err(TalkRefusal::Gap),
        Err(Misread::NoMemory) => Err(TalkRefusal::NoMemory),
        Err(Misread::Shape | Misread::Key) => Err(TalkRefusal::NoReply),
    }
}

/// That an entry was added.
pub fn read_added(tokens: VecDeque<Token>) -> Result<(), TalkRefusal>
    ensures { MeetsAdded result (tokens_at tokens.items) }
{
    if let Some(refusal) = refused(&tokens) {
        return Err(TalkRefusal::Refused(refusal));
    }
    let mut tokens = tokens;
    match tokens.pop_front() {
        Some(Token::Bulk(_)) => {
            if tokens.is_empty() {
                Ok(())
            } else {
                Err(TalkRefusal::NoReply)
            }
        }
        _ => Err(TalkRefusal::NoReply),
    }
}
