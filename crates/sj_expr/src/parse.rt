//! Expressions from tokens, by what is due.
ghost use Rattle.std.specs.Prelude.{ℕ, ◌≤◌, [], ◌∷◌, IfOk, IfErr};
ghost use Rattle.sj_lang.specs.CodeView.{term_of};
ghost use Rattle.sj_lang.specs.Limits.{limits};
ghost use Rattle.sj_grammar.specs.Lexis.{next_of};
ghost use Rattle.sj_grammar.specs.Expressions.{factor as a_factor, term as a_term, sum as a_sum};
ghost use Rattle.sj_grammar.specs.ExpressionDues.{whole as whole_due, factor as factor_due, times, plus, expression_at, expression_layer};
ghost use Rattle.sj_grammar.specs.FileDues.{expr};
ghost use Rattle.sj_grammar.specs.Refusals.{StuckInside, OnFault};
ghost use Rattle.sj_grammar.specs.Asked.{Passes};
ghost use Rattle.sj_proto.specs.Parsed.{standing, Stops};
ghost use Rattle.sj_expr.specs.Leaves.{LeavesTables, LeavesOperands};
ghost use Rattle.sj_expr.specs.Read.{ReadsLevel, ReadsWhole, ReadsExpression, HasRooms, StaysWithin};

use crate::operands::operand_in;
use crate::signs::{joined, negated, take_comparison, take_sign};
use crate::taking::{Outer, take_negative, take_operand, take_outer};
use sj_grammar::MOST_OPEN;
use sj_lang::{Expr, Names, Op};
use sj_proto::{ParseRefusal, Tokens};
use std::alloc::Global;

// A factor inside so many parentheses and `not`s; so many operands stand before it.
#[cycle(expression)]
fn factor(
    alloc: Global,
    tokens: &mut Tokens,
    names: &mut Names,
    count: &mut usize,
    depth: usize,
) -> Result<Expr, ParseRefusal>
    requires few { count.old ≤ limits.operands }
    requires deep { depth ≤ limits.nesting }
    requires room { HasRooms names.old tokens.old }
    ensures reads { IfOk result (λ e. ReadsLevel a_factor depth (standing tokens.old names.old)
        (standing tokens.new names.new) (term_of e)) }
    ensures leaves { LeavesOperands result
        names.old tokens.old count.old names.new tokens.new count.new }
    ensures fault { IfErr result (OnFault (λ f. StuckInside expression_layer limits count.old
        (standing tokens.old names.old) (factor_due depth ∷ []) f)) }
{
    if let Some(operand) = operand_in(tokens.spelling()) {
        return take_operand(tokens, names, count, operand);
    }
    if tokens.sees(b"-") {
        return take_negative(tokens, count);
    }
    match take_outer(tokens, depth >= MOST_OPEN)? {
        Outer::Not => {
            let inner = factor(alloc, tokens, names, count, depth + 1)?;
            Ok(negated(alloc, inner)?)
        }
        Outer::Parens => {
            let inner = whole(alloc, tokens, names, count, depth + 1)?;
            tokens.expect(b")")?;
            Ok(inner)
        }
    }
}

// Factors with `*` between them.
#[cycle(expression)]
fn term(
    alloc: Global,
    tokens: &mut Tokens,
    names: &mut Names,
    count: &mut usize,
    depth: usize,
) -> Result<Expr, ParseRefusal>
    requires few { count.old ≤ limits.operands }
    requires deep { depth ≤ limits.nesting }
    requires room { HasRooms names.old tokens.old }
    ensures reads { IfOk result (λ e. ReadsLevel a_term depth (standing tokens.old names.old)
        (standing tokens.new names.new) (term_of e)) }
    ensures ends { IfOk result (λ _. Passes expression_layer (times depth) (next_of tokens.new.ahead)) }
    ensures leaves { LeavesOperands result
        names.old tokens.old count.old names.new tokens.new count.new }
    ensures fault { IfErr result (OnFault (λ f. StuckInside expression_layer limits count.old
        (standing tokens.old names.old) (factor_due depth ∷ times depth ∷ []) f)) }
{
    let mut left = factor(alloc, tokens, names, count, depth)?;
    'factors: while tokens.accept(b"*") {
        let right = factor(alloc, tokens, names, count, depth)?;
        left = joined(alloc, Op::Mul, left, right)?;
    }
    Ok(left)
}

// Terms with `+` and `-` between them.
#[cycle(expression)]
fn sum(
    alloc: Global,
    tokens: &mut Tokens,
    names: &mut Names,
    count: &mut usize,
    depth: usize,
) -> Result<Expr, ParseRefusal>
    requires few { count.old ≤ limits.operands }
    requires deep { depth ≤ limits.nesting }
    requires room { HasRooms names.old tokens.old }
    ensures reads { IfOk result (λ e. ReadsLevel a_sum depth (standing tokens.old names.old)
        (standing tokens.new names.new) (term_of e)) }
    ensures ends { IfOk result (λ _. Passes expression_layer (times depth) (next_of tokens.new.ahead)
        × Passes expression_layer (plus depth) (next_of tokens.new.ahead)) }
    ensures leaves { LeavesOperands result
        names.old tokens.old count.old names.new tokens.new count.new }
    ensures fault { IfErr result (OnFault (λ f. StuckInside expression_layer limits count.old
        (standing tokens.old names.old) (factor_due depth ∷ times depth ∷ plus depth ∷ []) f)) }
{
    let mut left = term(alloc, tokens, names, count, depth)?;
    'terms: while let Some(op) = take_sign(tokens) {
        let right = term(alloc, tokens, names, count, depth)?;
        left = joined(alloc, op, left, right)?;
    }
    Ok(left)
}

// A sum, or two with a comparison between them.
#[cycle(expression)]
fn whole(
    alloc: Global,
    tokens: &mut Tokens,
    names: &mut Names,
    count: &mut usize,
    depth: usize,
) -> Result<Expr, ParseRefusal>
    requires few { count.old ≤ limits.operands }
    requires deep { depth ≤ limits.nesting }
    requires room { HasRooms names.old tokens.old }
    ensures reads { IfOk result (λ e. ReadsWhole count.old depth (standing tokens.old names.old)
        (standing tokens.new names.new) (term_of e)) }
    ensures leaves { LeavesOperands result
        names.old tokens.old count.old names.new tokens.new count.new }
    ensures fault { IfErr result (OnFault (λ f. StuckInside expression_layer limits count.old
        (standing tokens.old names.old) (expression_at depth) f)) }
{
    let left = sum(alloc, tokens, names, count, depth)?;
    if let Some(op) = take_comparison(tokens) {
        let right = sum(alloc, tokens, names, count, depth)?;
        return Ok(joined(alloc, op, left, right)?);
    }
    Ok(left)
}

/// The expression that begins with the next token, and ends where what comes next goes on with
/// none. Its names and texts are those of the tables, which grow by the new ones.
pub fn parse_expression(
    alloc: Global,
    tokens: &mut Tokens,
    names: &mut Names,
) -> Result<Expr, ParseRefusal>
    requires room { HasRooms names.old tokens.old }

    ensures reads { IfOk result (λ e. ReadsExpression (standing tokens.old names.old)
        (standing tokens.new names.new) (term_of e)) }

    // for what is read after it
    ensures leaves { LeavesTables StaysWithin result names.old tokens.old names.new tokens.new }

    // the fault is the first one, whatever is due after the expression
    ensures fault { IfErr result (λ e. (n : ℕ) → Stops (λ ds. expr whole_due ∷ ds) n
        (standing tokens.old names.old) e) }
{
    let mut count = 0;
    whole(alloc, tokens, names, &mut count, 0)
}
