//! A decoder of tokens, whose bytes come in pieces of any size.
ghost use Rattle.std.specs.Prelude.{◌≡◌, ◌++◌, ◌≤◌, List, [], ℕ, drop, length, IfErr, IfNone, IfOk, IfSome, OnErr, OnOk};
ghost use Rattle.sj_resp.specs.Front.{Cut, Whole, front_of};
ghost use Rattle.sj_resp.specs.Reads.{IsRefused};
ghost use Rattle.sj_resp.specs.Token.{token_at};

use crate::fronts::front;
use crate::{RespRefusal, Token};
use sj_base::NoMemory;
use std::alloc::Global;
use std::marker::Model;

/// Holds the bytes that were fed and that no token has used up.
#[derive(Drop)]
pub struct TokenDecoder {
    alloc: Global,
    bytes: Vec<u8>,
    /// How many of them are used up.
    used: usize,
}

impl Model for TokenDecoder {
    ghost Value = { List ℕ };

    ghost view = { λ d. drop d.used d.bytes.items };

    ghost invariant = { λ d. d.used ≤ length d.bytes.items };
}

impl TokenDecoder {
    /// A decoder without bytes.
    pub fn new(alloc: Global) -> TokenDecoder
        ensures { result ≡ [] }
    {
        TokenDecoder {
            alloc,
            bytes: Vec::new(alloc),
            used: 0,
        }
    }

    /// Appends a piece of the stream to the bytes that are left. Out of memory changes nothing.
    pub fn feed(&mut self, piece: &[u8]) -> Result<(), NoMemory>
        ensures ok { OnOk result (self.new ≡ self.old ++ piece.now) }
        ensures err { OnErr result (self.new ≡ self.old) }
    {
        self.forget();
        self.bytes.extend_from_slice(piece)?;
        Ok(())
    }

    /// Drops the used bytes once they are more than the others. So a byte that is moved is paid for
    /// by one that was used up.
    fn forget(&mut self)
        ensures { self.new ≡ self.old }
    {
        if self.used > self.bytes.len() - self.used {
            let left = self.bytes.len() - self.used;
            self.bytes.copy_within(self.used.., 0);
            self.bytes.truncate(left);
            self.used = 0;
        }
    }

    /// The next token. `None`: the bytes are less than a token, so feed more. A refusal changes
    /// nothing, and unless it is out of memory, the next call refuses for the same cause.
    pub fn next(&mut self) -> Result<Option<Token>, RespRefusal>
        ensures token { IfOk result (λ x. IfSome x (λ t. front_of self.old ≡ Whole (token_at t) self.new)) }
        ensures none { IfOk result (λ x. IfNone x ((front_of self.old ≡ Cut) × (self.new ≡ self.old))) }
        ensures refused { IfErr result (λ e. IsRefused e (front_of self.old)) }
        ensures err { OnErr result (self.new ≡ self.old) }
    {
        match front(self.alloc, &self.bytes[self.used..]) {
            Ok(Some((token, size))) => {
                self.used += size;
                Ok(Some(token))
            }
            Ok(None) => Ok(None),
            Err(e) => Err(e),
        }
    }
}
