//! Where a fault is: a part of the file, and the words of it that are in question.
ghost use Rattle.std.specs.Prelude.{◌≤◌, length};
ghost use Rattle.sj_lang.specs.Limits.{file_limit};

use crate::context::Site;
use sj_base::NoMemory;
use sj_lang::Names;
use sj_proto::{Token, Tokens, What};
use std::alloc::Global;

/// What begins on the line of a fault.
#[derive(Clone, Copy)]
pub(crate) enum Part {
    Protocol,
    Party,
    Connection,
    Statement,
}

/// Words of a part, by tokens from its first one on, which is 0.
#[derive(Clone, Copy)]
pub(crate) enum Span {
    /// The token of that number.
    Token(usize),
    /// From that token up to the next `;` or `{`.
    Value(usize),
    /// The first token from that one on which is the word of that number.
    Word(usize, u16),
    /// The name of that number, from 0, among the names from that token on.
    Name(usize, usize),
}

/// What is underlined: from one position of the text up to another.
#[derive(Clone, Copy)]
pub(crate) struct Stretch {
    pub line: u32,
    pub column: u32,
    pub length: usize,
}

/// A text with its tokens.
#[derive(Drop)]
pub(crate) struct Scanned<'a> {
    source: &'a [u8],
    tokens: Vec<Token>,
}

impl<'a> Scanned<'a> {
    pub fn of(alloc: Global, source: &'a [u8]) -> Result<Scanned<'a>, NoMemory>
        requires { length source.now ≤ file_limit }
    {
        let tokens = tokens_of(alloc, source)?;
        Ok(Scanned { source, tokens })
    }

    fn spelling(&self, token: Token) -> &[u8] {
        match self.source.get(token.from..token.to) {
            Some(bytes) => bytes,
            None => b"",
        }
    }

    /// The number of the token with which that part begins.
    fn first_of(&self, site: Site) -> Option<usize> {
        let mut count = 0usize;
        for (i, token) in self.tokens.iter().enumerate() {
            if token.line == site.line && begins(site.part, self.spelling(*token)) {
                count = count.saturating_add(1);
                if count == site.nth {
                    return Some(i);
                }
            }
        }
        None
    }

    /// What the mark at that part underlines; None where the text has no such words.
    pub fn stretch(&self, names: &Names, site: Site, mark: Span) -> Option<Stretch> {
        let first = self.first_of(site)?;
        match mark {
            Span::Token(n) => self.one(first.saturating_add(n)),
            Span::Value(n) => self.value(first.saturating_add(n)),
            Span::Word(n, word) => {
                let word = names.words.get(word as usize)?;
                self.word(first.saturating_add(n), word)
            }
            Span::Name(n, k) => self.name(first.saturating_add(n), k),
        }
    }

    fn one(&self, n: usize) -> Option<Stretch> {
        let token = *self.tokens.get(n)?;
        Some(Stretch {
            line: token.line,
            column: token.column,
            length: token.to.saturating_sub(token.from),
        })
    }

    fn value(&self, n: usize) -> Option<Stretch> {
        let first = *self.tokens.get(n)?;
        let mut to = first.to;
        for token in self.tokens.get(n..)? {
            let spelled = self.spelling(*token);
            if token.line != first.line
                || spelled == b";".as_slice()
                || spelled == b"{".as_slice()
            {
                break;
            }
            to = token.to;
        }
        Some(Stretch {
            line: first.line,
            column: first.column,
            length: to.saturating_sub(first.from),
        })
    }

    fn word(&self, n: usize, word: &[u8]) -> Option<Stretch> {
        for (i, token) in self.tokens.get(n..)?.iter().enumerate() {
            if self.spelling(*token) == word {
                return self.one(n.saturating_add(i));
            }
        }
        None
    }

    fn name(&self, n: usize, k: usize) -> Option<Stretch> {
        let mut count = 0usize;
        for (i, token) in self.tokens.get(n..)?.iter().enumerate() {
            if sj_proto::is_name_text(self.spelling(*token)) {
                if count == k {
                    return self.one(n.saturating_add(i));
                }
                count = count.saturating_add(1);
            }
        }
        None
    }

    /// The number of the token that begins at that line and column, or that of the end.
    pub fn index_at(&self, line: u32, column: u32) -> usize {
        for (i, token) in self.tokens.iter().enumerate() {
            if token.line == line && token.column == column {
                return i;
            }
        }
        self.tokens.len()
    }

    /// The bytes of the token of that number; none after the last.
    pub fn spelled(&self, n: usize) -> &[u8] {
        match self.tokens.get(n) {
            Some(token) => self.spelling(*token),
            None => b"",
        }
    }

    /// The bytes of the text before the token of that number; all of them before the end.
    pub fn front(&self, n: usize) -> &[u8] {
        match self.tokens.get(n) {
            Some(token) => match self.source.get(..token.from) {
                Some(front) => front,
                None => b"",
            },
            None => self.source,
        }
    }

    /// The bytes of the text from that line and column on.
    pub fn rest_at(&self, line: u32, column: u32) -> &[u8] {
        let mut at = (1u32, 1u32);
        for (i, b) in self.source.iter().enumerate() {
            if at == (line, column) {
                return match self.source.get(i..) {
                    Some(rest) => rest,
                    None => b"",
                };
            }
            at = if *b == b'\n' {
                (at.0.saturating_add(1), 1)
            } else {
                (at.0, at.1.saturating_add(1))
            };
        }
        b""
    }

    /// The token that begins at that line and column, or one byte there.
    pub fn at(&self, line: u32, column: u32) -> Stretch {
        for (i, token) in self.tokens.iter().enumerate() {
            if token.line == line && token.column == column {
                if let Some(stretch) = self.one(i) {
                    return stretch;
                }
            }
        }
        Stretch {
            line,
            column,
            length: 1,
        }
    }
}

fn tokens_of(alloc: Global, source: &[u8]) -> Result<Vec<Token>, NoMemory>
    requires { length source.now ≤ file_limit }
{
    let mut reader = Tokens::over(source);
    let mut tokens = Vec::new(alloc);
    for _ in 0..source.len() {
        match reader.next() {
            Ok(token) => {
                if token.what == What::End {
                    return Ok(tokens);
                }
                tokens.push(token)?;
            }
            Err(_) => return Ok(tokens),
        }
    }
    Ok(tokens)
}

// Whether a part of that sort begins with that word, which is reserved and stands nowhere else.
fn begins(part: Part, word: &[u8]) -> bool {
    match part {
        Part::Protocol => word == b"protocol".as_slice(),
        Part::Party => word == b"party".as_slice(),
        Part::Connection => word == b"connect".as_slice(),
        Part::Statement => begins_statement(word),
    }
}

const STATEMENTS: [&[u8]; 13] = [
    b"send",
    b"delegate",
    b"recv",
    b"outbranch",
    b"inbranch",
    b"outwhile",
    b"inwhile",
    b"relay",
    b"if",
    b"let",
    b"close",
    b"request",
    b"accept",
];

fn begins_statement(word: &[u8]) -> bool {
    for first in STATEMENTS {
        if word == first {
            return true;
        }
    }
    false
}
