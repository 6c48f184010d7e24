//! Expressions as text.
#![tactic(auto, using(sj_text::proofs::CutLemmas::cuts))]

ghost use Rattle.std.specs.Prelude.{◌≡◌, ◌++◌, [], if◌then◌else◌, OnOk, OnErr};
ghost use Rattle.sj_text.specs.Cut.{IsCutShort};
ghost use Rattle.sj_lang.specs.CodeView.{term_of};
ghost use Rattle.sj_grammar.specs.Literals.{quoted};
ghost use Rattle.sj_grammar.specs.Tables.{entry_of};
ghost use Rattle.sj_party.specs.CanonicalExpression.{spelling_of, left_of, right_of, needs_parens, spaced_op, expression_text};
ghost use Rattle.sj_party.specs.Levels.{level_of};

use sj_base::NoMemory;
use sj_lang::{Expr, Names, Op};
use sj_proto::put_word;
use sj_text::{put, put_int};

/// What of an expression may stand in a position without parentheses.
#[derive(Clone, Copy, Debug, PartialEq, Eq)]
pub enum Wanted {
    Whole,
    Sum,
    Term,
    Factor,
}

// Whether two operands of that operator stand in parentheses there.
fn is_enclosed(wanted: Wanted, op: Op) -> bool
    ensures { result ≡ needs_parens (level_of wanted) op }
{
    match wanted {
        Wanted::Whole => false,
        Wanted::Sum => match op {
            Op::Add => false,
            Op::Sub => false,
            Op::Mul => false,
            Op::Less => true,
            Op::LessEq => true,
            Op::Equal => true,
        },
        Wanted::Term => match op {
            Op::Add => true,
            Op::Sub => true,
            Op::Mul => false,
            Op::Less => true,
            Op::LessEq => true,
            Op::Equal => true,
        },
        Wanted::Factor => true,
    }
}

// What an operator takes on its left, and on its right.
fn on_left(op: Op) -> Wanted
    ensures { level_of result ≡ left_of op }
{
    match op {
        Op::Add => Wanted::Sum,
        Op::Sub => Wanted::Sum,
        Op::Mul => Wanted::Term,
        Op::Less => Wanted::Sum,
        Op::LessEq => Wanted::Sum,
        Op::Equal => Wanted::Sum,
    }
}

fn on_right(op: Op) -> Wanted
    ensures { level_of result ≡ right_of op }
{
    match op {
        Op::Add => Wanted::Term,
        Op::Sub => Wanted::Term,
        Op::Mul => Wanted::Factor,
        Op::Less => Wanted::Sum,
        Op::LessEq => Wanted::Sum,
        Op::Equal => Wanted::Sum,
    }
}

// An operator between spaces.
fn sign(op: Op) -> &'static [u8]
    ensures { result.now ≡ spaced_op op }
{
    match op {
        Op::Add => b" + ",
        Op::Sub => b" - ",
        Op::Mul => b" * ",
        Op::Less => b" < ",
        Op::LessEq => b" <= ",
        Op::Equal => b" == ",
    }
}

// Appends the bytes where they are needed.
fn put_if(text: &mut Vec<u8>, needed: bool, bytes: &[u8]) -> Result<(), NoMemory>
    ensures ok { OnOk result (text.new.items
        ≡ text.old.items ++ (if needed then bytes.now else [])) }
    ensures err { OnErr result (text.new.items ≡ text.old.items) }
{
    if needed {
        return put(text, bytes);
    }
    Ok(())
}

// Appends the text of that number in quotes; where there is none, quotes alone.
fn put_quoted(text: &mut Vec<u8>, names: &Names, n: u32) -> Result<(), NoMemory>
    ensures ok { OnOk result (text.new.items
        ≡ text.old.items ++ quoted (entry_of names.now.texts n)) }
    ensures err { OnErr result (IsCutShort text.old.items
        (quoted (entry_of names.now.texts n)) text.new.items) }
{
    put(text, b"\"")?;
    put_text(text, names, n)?;
    put(text, b"\"")
}

// Appends the text of that number, and nothing where there is none.
fn put_text(text: &mut Vec<u8>, names: &Names, n: u32) -> Result<(), NoMemory>
    ensures ok { OnOk result (text.new.items ≡ text.old.items ++ entry_of names.now.texts n) }
    ensures err { OnErr result (text.new.items ≡ text.old.items) }
{
    match names.texts.get(n as usize) {
        Some(bytes) => put(text, bytes),
        None => Ok(()),
    }
}

/// Appends the canonical text of an expression where such a one is wanted.
pub fn put_expression(
    text: &mut Vec<u8>,
    names: &Names,
    wanted: Wanted,
    e: &Expr,
) -> Result<(), NoMemory>
    ensures ok { OnOk result (text.new.items ≡ text.old.items
        ++ expression_text (spelling_of names.now) (level_of wanted) (term_of e.now)) }
    ensures err { OnErr result (IsCutShort text.old.items
        (expression_text (spelling_of names.now) (level_of wanted) (term_of e.now))
        text.new.items) }
{
    match e {
        Expr::Int(n) => put_int(text, *n),
        Expr::Bool(true) => put(text, b"true"),
        Expr::Bool(false) => put(text, b"false"),
        Expr::Text(n) => put_quoted(text, names, *n),
        Expr::Var(n) => put_word(text, names, *n),
        Expr::Not(f) => {
            put(text, b"not ")?;
            put_expression(text, names, Wanted::Factor, f)
        }
        Expr::Two(op, f, g) => {
            let enclosed = is_enclosed(wanted, *op);
            put_if(text, enclosed, b"(")?;
            put_expression(text, names, on_left(*op), f)?;
            put(text, sign(*op))?;
            put_expression(text, names, on_right(*op), g)?;
            put_if(text, enclosed, b")")
        }
    }
}
