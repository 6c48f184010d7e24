//! The first tokens of a factor.
ghost use Rattle.std.specs.Prelude.{◌≡◌, ◌≢◌, ℕ, ◌+◌, ◌*◌, ◌<◌, ◌≤◌, List, [], ◌∷◌, false, true, length, codes, pos, neg_ℤ, FitsSigned, IfOk, IfErr};
ghost use Rattle.std.specs.Int.{w64};
ghost use Rattle.sj_lang.specs.CodeView.{term_of};
ghost use Rattle.sj_lang.specs.Limits.{limits};
ghost use Rattle.sj_grammar.specs.Lexis.{next_of, most};
ghost use Rattle.sj_grammar.specs.Reading.{before_next, fault_at};
ghost use Rattle.sj_grammar.specs.Positions.{at};
ghost use Rattle.sj_grammar.specs.Literals.{is_text};
ghost use Rattle.sj_grammar.specs.Expressions.{factor as a_factor, operand_count};
ghost use Rattle.sj_grammar.specs.ExpressionDues.{factor as factor_due, expression_layer};
ghost use Rattle.sj_grammar.specs.Refusals.{StuckInside, OnFault};
ghost use Rattle.sj_grammar.specs.Asked.{TakesText, Refuses, spelled_next, is_next};
ghost use Rattle.sj_grammar.specs.Rules.{over_limit};
ghost use Rattle.sj_proto.specs.Onward.{Advances};
ghost use Rattle.sj_proto.specs.Parsed.{standing};
ghost use Rattle.sj_expr.specs.Operands.{IsOperandOf};
ghost use Rattle.sj_expr.specs.Leaves.{LeavesTables, LeavesOperands};
ghost use Rattle.sj_expr.specs.Read.{Reads, ReadsLevel, HasRooms, StaysWithin, TextSpelled};
ghost use Rattle.sj_expr.specs.Factors.{outer_piece, but_outer, but_text};

use crate::operands::{Operand, inner_of, number_in};
use sj_lang::{Expr, Names};
use sj_proto::{Fault, ParseRefusal, Rule, Tokens, take_name};

const MOST_OPERANDS: usize = 256;

const MOST_TEXT: usize = 255;

/// What stands in a factor before the factor or the expression inside it.
#[derive(Clone, Copy, Debug, PartialEq, Eq)]
pub enum Outer {
    Not,
    Parens,
}

// Takes the next token, which is there.
fn take_piece<'a>(tokens: &mut Tokens<'a>) -> &'a [u8]
    requires { spelled_next (next_of tokens.old.ahead) ≢ [] }
    ensures piece { result.now ≡ spelled_next (next_of tokens.old.ahead) }
    ensures taken { TakesText tokens.old result.now tokens.new }
    ensures shorter { length tokens.new.ahead < length tokens.old.ahead }
    ensures onward { Advances tokens.old tokens.new }
{
    let piece = tokens.spelling();
    let _taken = tokens.accept(piece);
    piece
}

// Takes the next token, which is a text, and answers its number in the table of texts.
fn take_text(tokens: &mut Tokens, names: &mut Names) -> Result<u32, ParseRefusal>
    requires text { is_text (spelled_next (next_of tokens.old.ahead)) ≡ true }
    requires room { HasRooms names.old tokens.old }
    ensures reads { IfOk result (λ n. Reads (standing tokens.old names.old) (standing tokens.new names.new)
        (TextSpelled n)) }
    ensures fault { IfErr result (OnFault (Refuses but_text tokens.old)) }
    ensures leaves { LeavesTables StaysWithin result names.old tokens.old names.new tokens.new }
{
    let inside = inner_of(tokens.spelling());
    if inside.len() > MOST_TEXT {
        return Err(ParseRefusal::At(tokens.fault(Rule::P4)));
    }
    take_piece(tokens);
    let n = names.texts.add(inside)?;
    Ok(n as u32)
}

// The fault that the next token passes a limit, 2^63 too.
fn limit_fault(tokens: &Tokens) -> Fault
    ensures { result ≡ fault_at (before_next tokens.now (next_of tokens.now.ahead)) over_limit }
{
    let Fault { line, column, .. } = tokens.fault(Rule::P4);
    Fault {
        rule: Rule::P4,
        line,
        column,
    }
}

fn negative_of(value: u64) -> i64
    requires { value ≤ most }
    ensures value { result ≡ neg_ℤ (pos value) }
    ensures fits { FitsSigned w64 result }
{
    (-(value as i128)) as i64
}

/// Takes the next token, which is that operand; so many operands stand before it.
pub fn take_operand(
    tokens: &mut Tokens,
    names: &mut Names,
    count: &mut usize,
    operand: Operand,
) -> Result<Expr, ParseRefusal>
    requires stands { IsOperandOf operand (spelled_next (next_of tokens.old.ahead)) }
    requires few { count.old ≤ limits.operands }
    requires room { HasRooms names.old tokens.old }
    ensures reads { IfOk result (λ e. (o : ℕ) → ReadsLevel a_factor o (standing tokens.old names.old)
        (standing tokens.new names.new) (term_of e)) }
    ensures one { IfOk result (λ e. operand_count (term_of e) ≡ 1) }
    ensures leaves { LeavesOperands result
        names.old tokens.old count.old names.new tokens.new count.new }
    ensures fault { IfErr result (OnFault (λ f. (o : ℕ) → StuckInside expression_layer limits count.old
        (standing tokens.old names.old) (factor_due o ∷ []) f)) }
{
    if *count >= MOST_OPERANDS {
        return Err(ParseRefusal::At(limit_fault(tokens)));
    }
    *count += 1;
    match operand {
        Operand::Number(value) => {
            take_piece(tokens);
            Ok(Expr::Int(value as i64))
        }
        Operand::Text => {
            let n = take_text(tokens, names)?;
            Ok(Expr::Text(n))
        }
        Operand::Name => {
            let n = take_name(tokens, names, false)?;
            Ok(Expr::Var(n))
        }
        Operand::True => {
            take_piece(tokens);
            Ok(Expr::Bool(true))
        }
        Operand::False => {
            take_piece(tokens);
            Ok(Expr::Bool(false))
        }
    }
}

/// Takes the minus that comes next and the number after it; so many operands stand before it.
pub fn take_negative(tokens: &mut Tokens, count: &mut usize) -> Result<Expr, ParseRefusal>
    requires minus { is_next (codes "-") (next_of tokens.old.ahead) ≡ true }
    requires few { count.old ≤ limits.operands }
    ensures reads { IfOk result (λ e. (o : ℕ) (words texts : List (List ℕ)) → ReadsLevel a_factor o
        (at tokens.old words texts) (at tokens.new words texts) (term_of e)) }
    ensures one { IfOk result (λ e. operand_count (term_of e) ≡ 1) }
    ensures count { IfOk result (λ _. count.new ≡ count.old + 1) }
    ensures few { IfOk result (λ _. count.new ≤ limits.operands) }
    ensures shorter { IfOk result (λ _. length tokens.new.ahead < length tokens.old.ahead) }
    ensures onward { Advances tokens.old tokens.new }
    ensures fault { IfErr result (OnFault (λ f. (o : ℕ) (words texts : List (List ℕ)) → StuckInside
        expression_layer limits count.old (at tokens.old words texts) (factor_due o ∷ []) f)) }
{
    let _minus = tokens.accept(b"-");
    let Some(value) = number_in(tokens.spelling()) else {
        return Err(ParseRefusal::At(tokens.fault(Rule::P1)));
    };
    if *count >= MOST_OPERANDS {
        return Err(ParseRefusal::At(limit_fault(tokens)));
    }
    *count += 1;
    take_piece(tokens);
    Ok(Expr::Int(negative_of(value)))
}

/// Takes what opens an inner factor or expression, which passes a limit where it is too deep.
pub fn take_outer(tokens: &mut Tokens, deep: bool) -> Result<Outer, Fault>
    ensures ok { IfOk result (λ o. TakesText tokens.old (outer_piece o) tokens.new) }
    ensures room { IfOk result (λ _. deep ≡ false) }
    ensures fault { IfErr result (Refuses (but_outer deep) tokens.old) }
    ensures shorter { IfOk result (λ _. length tokens.new.ahead < length tokens.old.ahead) }
    ensures onward { Advances tokens.old tokens.new }
{
    if !tokens.sees(b"not") && !tokens.sees(b"(") {
        return Err(tokens.fault(Rule::P1));
    }
    if deep {
        return Err(tokens.fault(Rule::P4));
    }
    if tokens.accept(b"not") {
        return Ok(Outer::Not);
    }
    tokens.expect(b"(")?;
    Ok(Outer::Parens)
}
