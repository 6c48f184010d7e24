//! The tokens of a text, one after another.
ghost use Rattle.std.specs.Prelude.{◌≡◌, ◌≢◌, ◌+◌, ◌<◌, ◌≤◌, [], length, IsTrue, Some, OnOk, IfErr, IfOk, false};
ghost use Rattle.sj_grammar.specs.Lexis.{next_of, at_end};
ghost use Rattle.sj_grammar.specs.Names.{is_name};
ghost use Rattle.sj_grammar.specs.Reading.{answer_to, reading_after, line_number, before_next};
ghost use Rattle.sj_grammar.specs.Refusals.{fault_next};
ghost use Rattle.sj_proto.specs.Onward.{Advances};
ghost use Rattle.sj_proto.specs.Protocols.{IsReadable, IsUnreadable};
ghost use Rattle.sj_grammar.specs.Asked.{TakesText, is_next, spelled_next, Refuses, but, but_name};
ghost use Rattle.sj_grammar.specs.Rules.{not_due};
ghost use Rattle.sj_lang.specs.Limits.{limits, file_limit};

use crate::reserved::is_name_text;
use crate::scan::{Found, fault_in, find, position};
use sj_grammar::{Fault, Rule, Token, What};
use std::marker::Model;

/// A text that is read token by token: its bytes, the position at which the reader stands, and its
/// line and column.
#[derive(Drop)]
pub struct Tokens<'a> {
    bytes: &'a [u8],
    at: usize,
    line: u32,
    column: u32,
}

impl<'a> Model for Tokens<'a> {
    ghost use Rattle.std.specs.Prelude.{take, drop};
    ghost use Rattle.sj_grammar.specs.Reading.{Reading};
    ghost use Rattle.sj_proto.specs.Found.{IsPosition};

    ghost Value = { Reading };

    ghost view = { λ t. record { before = take t.at t.bytes.now; ahead = drop t.at t.bytes.now } };

    ghost invariant = { λ t. IsPosition t.bytes.now t.at t.line t.column };
}

impl<'a> Tokens<'a> {
    /// The most bytes of a text.
    pub const MOST_BYTES: usize = 65_536;

    /// The most bytes of a name.
    pub const MOST_NAME: usize = 64;

    /// A reader before the first token of a text of at most 65,536 bytes.
    pub fn over(bytes: &'a [u8]) -> Tokens<'a>
        requires { length bytes.now ≤ file_limit }
        ensures { result ≡ record { before = []; ahead = bytes.now } }
    {
        Tokens {
            bytes,
            at: 0,
            line: 1,
            column: 1,
        }
    }

    /// Promises the caller that the whole text has at most 65,536 bytes; it does nothing.
    pub fn stays_short(&self)
        ensures { length self.now.before + length self.now.ahead ≤ file_limit }
    {
        let _bytes = self.bytes;
    }

    /// The next token. At the end, and after a fault, it answers the same again.
    pub fn next(&mut self) -> Result<Token, Fault>
        ensures answer { result ≡ answer_to self.old (next_of self.old.ahead) }
        ensures after { self.new ≡ reading_after self.old (next_of self.old.ahead) }
    {
        match find(self.bytes, self.at) {
            Found::Nothing => {
                let end = self.bytes.len();
                let (line, column) = position(self.bytes, self.at, end, self.line, self.column);
                self.at = end;
                self.line = line;
                self.column = column;
                Ok(Token {
                    what: What::End,
                    from: end,
                    to: end,
                    line,
                    column,
                })
            }
            Found::Bad(rule, to) => {
                let (line, column) = position(self.bytes, self.at, to, self.line, self.column);
                Err(Fault { rule, line, column })
            }
            Found::Piece(what, from, to) => {
                let (line, column) = position(self.bytes, self.at, from, self.line, self.column);
                let (last, behind) = position(self.bytes, from, to, line, column);
                self.at = to;
                self.line = last;
                self.column = behind;
                Ok(Token {
                    what,
                    from,
                    to,
                    line,
                    column,
                })
            }
        }
    }

    /// Whether the next token is spelled so.
    pub fn sees(&self, spelled: &[u8]) -> bool
        ensures { result ≡ is_next spelled.now (next_of self.now.ahead) }
    {
        match find(self.bytes, self.at) {
            Found::Piece(_, from, to) => &self.bytes[from..to] == spelled,
            _ => false,
        }
    }

    /// Takes the next token where it is spelled so.
    pub fn accept(&mut self, spelled: &[u8]) -> bool
        ensures answer { result ≡ is_next spelled.now (next_of self.old.ahead) }
        ensures taken { IsTrue result → TakesText self.old spelled.now self.new }
        ensures left { result ≡ false → self.new ≡ self.old }
        ensures shorter { IsTrue result → length self.new.ahead < length self.old.ahead }
        ensures onward { Advances self.old self.new }
    {
        if let Found::Piece(_, from, to) = find(self.bytes, self.at) {
            if &self.bytes[from..to] == spelled {
                let (line, column) = position(self.bytes, self.at, to, self.line, self.column);
                self.at = to;
                self.line = line;
                self.column = column;
                return true;
            }
        }
        false
    }

    /// The bytes of the next token, and none where there is none.
    pub fn spelling(&self) -> &'a [u8]
        ensures { result.now ≡ spelled_next (next_of self.now.ahead) }
    {
        match find(self.bytes, self.at) {
            Found::Piece(_, from, to) => &self.bytes[from..to],
            _ => &[],
        }
    }

    /// The line of the next token, of the fault that stands in its place, or of the end.
    pub fn line(&self) -> u32
        ensures { result ≡ line_number (before_next self.now (next_of self.now.ahead)) }
    {
        self.fault(Rule::P1).line
    }

    /// The fault that the next token breaks the rule. Where no token can be read, and at 2^63, it
    /// is the fault of that.
    pub fn fault(&self, rule: Rule) -> Fault
        ensures { result ≡ fault_next self.now rule (next_of self.now.ahead) }
    {
        let found = find(self.bytes, self.at);
        let (first, to) = fault_in(self.bytes, found, rule);
        let (line, column) = position(self.bytes, self.at, to, self.line, self.column);
        Fault {
            rule: first,
            line,
            column,
        }
    }

    /// Takes the next token, which has to be spelled so.
    pub fn expect(&mut self, spelled: &[u8]) -> Result<(), Fault>
        ensures ok { OnOk result (TakesText self.old spelled.now self.new) }
        ensures fault { IfErr result (Refuses (but spelled.now) self.old) }
        ensures shorter { OnOk result (length self.new.ahead < length self.old.ahead) }
        ensures err { IfErr result (λ _. self.new ≡ self.old) }
        ensures onward { Advances self.old self.new }
    {
        if self.accept(spelled) {
            return Ok(());
        }
        Err(self.fault(Rule::P1))
    }

    /// Takes the next token, which has to be a name; where there is no room for one more, and where
    /// it has over 64 bytes, it passes a limit.
    pub fn name(&mut self, full: bool) -> Result<&'a [u8], Fault>
        ensures ok { IfOk result (λ s. TakesText self.old s.now self.new) }
        ensures name { IfOk result (λ s. IsTrue (is_name s.now)) }
        ensures short { IfOk result (λ s. (length s.now ≤ limits.name) × (full ≡ false)) }
        ensures fault { IfErr result (Refuses (but_name full) self.old) }
        ensures shorter { IfOk result (λ _. length self.new.ahead < length self.old.ahead) }
        ensures err { IfErr result (λ _. self.new ≡ self.old) }
        ensures onward { Advances self.old self.new }
    {
        let word = self.spelling();
        if !is_name_text(word) {
            return Err(self.fault(Rule::P1));
        }
        if full || word.len() > Self::MOST_NAME {
            return Err(self.fault(Rule::P4));
        }
        self.expect(word)?;
        Ok(word)
    }

    /// Refuses what comes next where it is no token and not the end.
    pub fn readable(&self) -> Result<(), Fault>
        ensures ok { OnOk result (IsReadable (next_of self.now.ahead)) }
        ensures fault { IfErr result (IsUnreadable self.now (next_of self.now.ahead)) }
    {
        match find(self.bytes, self.at) {
            Found::Nothing => Ok(()),
            Found::Bad(_, _) => Err(self.fault(Rule::P1)),
            Found::Piece(_, _, _) => Ok(()),
        }
    }

    /// Refuses what is left, but for blanks and comments.
    pub fn finish(&self) -> Result<(), Fault>
        ensures ok { OnOk result (next_of self.now.ahead ≡ at_end) }
        ensures fault { IfErr result (Refuses (λ _. Some not_due) self.now) }
        ensures some { IfErr result (λ _. next_of self.now.ahead ≢ at_end) }
    {
        match find(self.bytes, self.at) {
            Found::Nothing => Ok(()),
            Found::Bad(_, _) => Err(self.fault(Rule::P1)),
            Found::Piece(_, _, _) => Err(self.fault(Rule::P1)),
        }
    }
}
