//! Tokens and faults, as readers answer them.
ghost use Rattle.std.specs.Prelude.{◌≡◌};
ghost use Rattle.sj_grammar.specs.Rules.{rule_number};

use thiserror::Error;

/// What a token is.
#[derive(Clone, Copy, Debug, PartialEq, Eq)]
pub enum What {
    Word,
    /// At most 2^63.
    Number(u64),
    Text,
    Symbol,
    /// Nothing but blanks and comments is left.
    End,
}

/// Why a text is outside the grammar.
#[derive(Clone, Copy, Debug, PartialEq, Eq)]
pub enum Rule {
    /// No text of the grammar goes on with this token, or ends here.
    P1,
    /// A byte that may not stand there.
    P2,
    /// A number with a leading zero, or out of its range.
    P3,
    /// A token that passes a limit.
    P4,
    /// A text literal without its closing quote on its line.
    P5,
}

impl Rule {
    /// Its number: that of P1 is 1.
    pub fn number(self) -> u8
        ensures { result ≡ rule_number self }
    {
        match self {
            Rule::P1 => 1,
            Rule::P2 => 2,
            Rule::P3 => 3,
            Rule::P4 => 4,
            Rule::P5 => 5,
        }
    }
}

/// The first fault of a text. Lines and columns count from 1; a column is a byte.
#[derive(Clone, Copy, Debug, PartialEq, Eq, Error)]
#[error("P{} at {line}:{column}", .rule.number())]
pub struct Fault {
    pub rule: Rule,
    pub line: u32,
    pub column: u32,
}

/// A token, the positions of its bytes from `from` up to `to`, and where it begins.
#[derive(Clone, Copy, Debug, PartialEq, Eq)]
pub struct Token {
    pub what: What,
    pub from: usize,
    pub to: usize,
    pub line: u32,
    pub column: u32,
}
