//! What statements have after their first words.
ghost use Rattle.std.specs.Prelude.{ℕ, ◌<◌, [], ◌∷◌, codes, IfOk, IfErr};
ghost use Rattle.sj_lang.specs.CodeView.{term_of};
ghost use Rattle.sj_grammar.specs.ExpressionDues.{whole};
ghost use Rattle.sj_grammar.specs.FileDues.{name as name_due, fixed, expr, awaited as awaited_due};
ghost use Rattle.sj_proto.specs.Parsed.{standing, Stops};
ghost use Rattle.sj_expr.specs.Leaves.{LeavesTables};
ghost use Rattle.sj_party.specs.Rooms.{HasRoomFor, Uses};
ghost use Rattle.sj_party.specs.Parts.{a_name, an_expression, a_piece, ReadsParts};
ghost use Rattle.sj_party.specs.Awaits.{awaited_part};
ghost use Rattle.sj_party.specs.Words.{IsFixed};

use crate::scalars::take_scalar;
use sj_expr::parse_expression;
use sj_lang::{Expr, Names, Scalar};
use sj_proto::{ParseRefusal, Tokens, take_name};
use std::alloc::Global;

/// What a `recv` awaits: a value, or an end of a session of that protocol.
#[derive(Clone, Copy, Debug, PartialEq, Eq)]
pub enum Awaited {
    Value(Scalar),
    End(u16),
}

pub fn one_name(tokens: &mut Tokens, names: &mut Names) -> Result<u16, ParseRefusal>
    requires room { HasRoomFor 1 names.old tokens.old }
    ensures reads { IfOk result (λ x. ReadsParts (standing tokens.old names.old)
        (standing tokens.new names.new) (a_name x ∷ [])) }
    ensures leaves { LeavesTables (Uses 1 0) result names.old tokens.old names.new tokens.new }
    ensures fault { IfErr result (λ e. (n : ℕ) → Stops (λ ds. name_due ∷ ds) n
        (standing tokens.old names.old) e) }
{
    take_name(tokens, names, false)
}

pub fn two_names(tokens: &mut Tokens, names: &mut Names) -> Result<(u16, u16), ParseRefusal>
    requires room { HasRoomFor 2 names.old tokens.old }
    ensures reads { IfOk result (λ x. ReadsParts (standing tokens.old names.old)
        (standing tokens.new names.new) (a_name x.0 ∷ a_name x.1 ∷ [])) }
    ensures leaves { LeavesTables (Uses 2 0) result names.old tokens.old names.new tokens.new }
    ensures fault { IfErr result (λ e. (n : ℕ) → Stops (λ ds. name_due ∷ name_due ∷ ds) n
        (standing tokens.old names.old) e) }
{
    let first = one_name(tokens, names)?;
    let second = one_name(tokens, names)?;
    Ok((first, second))
}

/// Two names, that word, and a third name.
pub fn names_around(
    tokens: &mut Tokens,
    names: &mut Names,
    word: &[u8],
) -> Result<(u16, u16, u16), ParseRefusal>
    requires fixed { IsFixed word.now }
    requires room { HasRoomFor 2 names.old tokens.old }
    ensures reads { IfOk result (λ x. ReadsParts (standing tokens.old names.old)
        (standing tokens.new names.new)
        (a_name x.0 ∷ a_name x.1 ∷ a_piece word.now ∷ a_name x.2 ∷ [])) }
    ensures leaves { LeavesTables (Uses 2 0) result names.old tokens.old names.new tokens.new }
    ensures fault { IfErr result (λ e. (n : ℕ) → Stops (λ ds. name_due ∷ name_due
        ∷ fixed word.now ∷ name_due ∷ ds) n (standing tokens.old names.old) e) }
{
    let (first, second) = two_names(tokens, names)?;
    tokens.expect(word)?;
    let third = one_name(tokens, names)?;
    Ok((first, second, third))
}

pub fn name_and_value(
    alloc: Global,
    tokens: &mut Tokens,
    names: &mut Names,
) -> Result<(u16, Expr), ParseRefusal>
    requires room { HasRoomFor 2 names.old tokens.old }
    ensures reads { IfOk result (λ x. ReadsParts (standing tokens.old names.old)
        (standing tokens.new names.new) (a_name x.0 ∷ an_expression (term_of x.1) ∷ [])) }
    ensures leaves { LeavesTables (Uses 2 0) result names.old tokens.old names.new tokens.new }
    ensures fault { IfErr result (λ e. (n : ℕ) → Stops (λ ds. name_due ∷ expr whole ∷ ds) n
        (standing tokens.old names.old) e) }
{
    let name = one_name(tokens, names)?;
    let value = parse_expression(alloc, tokens, names)?;
    Ok((name, value))
}

/// A name, and after a `=` its value.
pub fn binding(
    alloc: Global,
    tokens: &mut Tokens,
    names: &mut Names,
) -> Result<(u16, Expr), ParseRefusal>
    requires room { HasRoomFor 2 names.old tokens.old }
    ensures reads { IfOk result (λ x. ReadsParts (standing tokens.old names.old)
        (standing tokens.new names.new)
        (a_name x.0 ∷ a_piece (codes "=") ∷ an_expression (term_of x.1) ∷ [])) }
    ensures leaves { LeavesTables (Uses 2 0) result names.old tokens.old names.new tokens.new }
    ensures fault { IfErr result (λ e. (n : ℕ) → Stops (λ ds. name_due ∷ fixed (codes "=")
        ∷ expr whole ∷ ds) n (standing tokens.old names.old) e) }
{
    let name = one_name(tokens, names)?;
    tokens.expect(b"=")?;
    let value = parse_expression(alloc, tokens, names)?;
    Ok((name, value))
}

/// What stands after the two names of a `recv`.
pub fn take_awaited(tokens: &mut Tokens, names: &mut Names) -> Result<Awaited, ParseRefusal>
    requires room { HasRoomFor 0 names.old tokens.old }
    ensures reads { IfOk result (λ x. ReadsParts (standing tokens.old names.old)
        (standing tokens.new names.new) (awaited_part x ∷ [])) }
    ensures leaves { LeavesTables (Uses 0 0) result names.old tokens.old names.new tokens.new }
    ensures fault { IfErr result (λ e. (n : ℕ) → Stops (λ ds. awaited_due ∷ ds) n
        (standing tokens.old names.old) e) }
{
    if let Some(kind) = take_scalar(tokens) {
        return Ok(Awaited::Value(kind));
    }
    tokens.expect(b"session")?;
    let protocol = one_name(tokens, names)?;
    Ok(Awaited::End(protocol))
}
