//! The tokens of the language, and the line of those that may stand at a place.
ghost use Rattle.std.specs.Prelude.{◌≡◌, ◌≤◌, ◌++◌, length, map, IfOk, OnOk};
ghost use Rattle.sj_wanted.specs.Trial.{Tells, front_limit};
ghost use Rattle.sj_wanted.specs.Table.{tokens, chosen, wanted_line};

use crate::trial::trials;
use sj_base::NoMemory;
use sj_text::put;
use std::alloc::Global;

/// One token of each sort, as it is tried. The last one has no bytes and stands for the end of the
/// file.
pub const TOKENS: [&[u8]; 51] = [
    b";",
    b".",
    b",",
    b":",
    b")",
    b">",
    b"]",
    b"}",
    b"(",
    b"<",
    b"[",
    b"{",
    b"!",
    b"?",
    b"=",
    b"==",
    b"<=",
    b"+",
    b"-",
    b"*",
    b"x",
    b"1",
    b"\"\"",
    b"accept",
    b"begin",
    b"boolean",
    b"close",
    b"connect",
    b"delegate",
    b"else",
    b"false",
    b"from",
    b"if",
    b"int",
    b"inbranch",
    b"inwhile",
    b"let",
    b"not",
    b"outbranch",
    b"outwhile",
    b"party",
    b"protocol",
    b"recv",
    b"relay",
    b"request",
    b"send",
    b"session",
    b"String",
    b"to",
    b"true",
    b"",
];

/// The same, as they are shown.
pub const SHOWN: [&[u8]; 51] = [
    b";",
    b".",
    b",",
    b":",
    b")",
    b">",
    b"]",
    b"}",
    b"(",
    b"<",
    b"[",
    b"{",
    b"!",
    b"?",
    b"=",
    b"==",
    b"<=",
    b"+",
    b"-",
    b"*",
    b"NAME",
    b"NUMBER",
    b"TEXT",
    b"accept",
    b"begin",
    b"boolean",
    b"close",
    b"connect",
    b"delegate",
    b"else",
    b"false",
    b"from",
    b"if",
    b"int",
    b"inbranch",
    b"inwhile",
    b"let",
    b"not",
    b"outbranch",
    b"outwhile",
    b"party",
    b"protocol",
    b"recv",
    b"relay",
    b"request",
    b"send",
    b"session",
    b"String",
    b"to",
    b"true",
    b"END",
];

/// Appends the line of the tokens that may stand after that text; the marks say which these are.
pub fn put_wanted(alloc: Global, text: &mut Vec<u8>, front: &[u8]) -> Result<Vec<bool>, NoMemory>
    requires { length front.now ≤ front_limit }
    ensures marks { IfOk result (λ r. Tells front.now tokens r.items) }
    ensures line { IfOk result (λ r. text.new.items ≡ text.old.items ++ wanted_line r.items) }
{
    let marks = trials(alloc, front, &TOKENS)?;
    put(text, b"wanted one of:")?;
    put_chosen(text, &SHOWN, &marks)?;
    put(text, b"\n")?;
    Ok(marks)
}

// Appends the words that are marked.
fn put_chosen(text: &mut Vec<u8>, words: &[&[u8]], marks: &[bool]) -> Result<(), NoMemory>
    ensures { OnOk result (text.new.items ≡ text.old.items ++ chosen marks.now (map (λ w. w.now) words.now)) }
{
    let Some((mark, more_marks)) = marks.split_first() else {
        return Ok(());
    };
    let Some((word, more_words)) = words.split_first() else {
        return Ok(());
    };
    if *mark {
        put(text, b" ")?;
        put(text, word)?;
    }
    put_chosen(text, more_words, more_marks)
}
