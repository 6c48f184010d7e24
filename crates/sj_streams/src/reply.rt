//! The tokens of a reply, as they come.
ghost use Rattle.std.specs.Prelude.{◌≡◌, ◌<◌, ◌↔◌, [], IfErr, IfOk, IsFalse, IsTrue, OnErr};
ghost use Rattle.sj_resp.specs.Front.{Cut, front_of};
ghost use Rattle.sj_resp.specs.Reads.{IsRefused};
ghost use Rattle.sj_resp.specs.Token.{token_at};
ghost use Rattle.sj_streams.specs.Gathering.{Took, due_in, parts_of, tokens_in};
ghost use Rattle.sj_streams.specs.Words.{tokens_at};

use sj_resp::{RespRefusal, Token, TokenDecoder};
use std::alloc::Global;
use std::collections::VecDeque;

/// The tokens of one reply, as far as they came.
#[derive(Drop)]
pub struct Reply {
    pub(crate) tokens: VecDeque<Token>,
    /// How many replies are still to come, those within others too.
    pub(crate) due: u64,
}

/// How many replies a token has as its parts.
fn parts(token: &Token) -> u32
    ensures { result ≡ parts_of (token_at token.now) }
{
    match token {
        Token::Array(n) => *n,
        _ => 0,
    }
}

impl Reply {
    /// A reply of which nothing came.
    pub fn new(alloc: Global) -> Reply
        ensures tokens { tokens_in result ≡ [] }
        ensures due { due_in result ≡ 1 }
    {
        Reply {
            tokens: VecDeque::new(alloc),
            due: 1,
        }
    }

    /// Takes tokens from the decoder until the reply is whole. Answers whether it is; where it isn't,
    /// the decoder needs more bytes. A refusal keeps what came.
    pub fn gather(&mut self, decoder: &mut TokenDecoder) -> Result<bool, RespRefusal>
        ensures took { Took self.old self.new decoder.old decoder.new }
        ensures whole { IfOk result (λ b. IsTrue b ↔ (due_in self.new ≡ 0)) }
        ensures cut { IfOk result (λ b. IsFalse b → front_of decoder.new ≡ Cut) }
        ensures refused { IfErr result (λ e. IsRefused e (front_of decoder.new)) }
        ensures short { OnErr result (0 < due_in self.new) }
    {
        while self.due > 0 {
            if self.tokens.reserve(1).is_err() {
                return Err(RespRefusal::NoMemory);
            }
            match decoder.next() {
                Ok(Some(token)) => {
                    self.due = (self.due - 1).saturating_add(u64::from(parts(&token)));
                    self.tokens.push_back_reserved(token);
                }
                Ok(None) => return Ok(false),
                Err(e) => return Err(e),
            }
        }
        Ok(true)
    }

    /// The tokens that came.
    pub fn into_tokens(self) -> VecDeque<Token>
        ensures { tokens_at result.items ≡ tokens_in self }
    {
        self.tokens
    }
}
