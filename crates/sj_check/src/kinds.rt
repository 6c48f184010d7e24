//! The kinds of expressions.
#![tactic(auto, using(crate::proofs::FaultLemmas::faults))]

ghost use Rattle.std.specs.Prelude.{◌≡◌, IfOk, IfErr};
ghost use Rattle.sj_lang.specs.CodeView.{term_of};
ghost use Rattle.sj_lang.specs.View.{carried_of};
ghost use Rattle.sj_acceptance.specs.KindTests as kinds;
ghost use Rattle.sj_acceptance.specs.Kinds.{given_by};
ghost use Rattle.sj_acceptance.specs.Sameness.{is_same_kind};
ghost use Rattle.sj_acceptance.specs.FirstItem as places;
ghost use Rattle.sj_check.specs.Told.{Judges, IsFault};

use crate::CheckRefusal;
use crate::rules::{CheckRule, broken};
use crate::variables::Variables;
use sj_lang::{Expr, Kind, Op, Scalar};

/// The kind of an expression. Operands come before their operator.
pub fn expr_kind(known: &Variables, line: u32, value: &Expr) -> Result<Scalar, CheckRefusal>
    ensures ok { IfOk result (λ k. k ≡ kinds.kind_of known.now (term_of value.now)) }
    ensures tests { Judges (kinds.term_tests line known.now (term_of value.now)) result }
    ensures cause { IfErr result IsFault }
{
    match value {
        Expr::Int(_) => Ok(Scalar::Int),
        Expr::Bool(_) => Ok(Scalar::Boolean),
        Expr::Text(_) => Ok(Scalar::Text),
        Expr::Var(name) => match known.kind(*name) {
            Some(kind) => Ok(kind),
            None => Err(broken(CheckRule::NotThere, line)),
        },
        Expr::Not(inner) => {
            let kind = expr_kind(known, line, inner)?;
            if !same_kind(kind, Scalar::Boolean) {
                return Err(broken(CheckRule::OtherKind, line));
            }
            Ok(Scalar::Boolean)
        }
        Expr::Two(op, left, right) => {
            let first = expr_kind(known, line, left)?;
            let second = expr_kind(known, line, right)?;
            if !takes(*op, first, second) {
                return Err(broken(CheckRule::OtherKind, line));
            }
            Ok(gives(*op))
        }
    }
}

pub fn same_kind(a: Scalar, b: Scalar) -> bool
    ensures { result ≡ is_same_kind a b }
{
    match (a, b) {
        (Scalar::Int, Scalar::Int) => true,
        (Scalar::Boolean, Scalar::Boolean) => true,
        (Scalar::Text, Scalar::Text) => true,
        _ => false,
    }
}

fn takes(op: Op, first: Scalar, second: Scalar) -> bool
    ensures { result ≡ kinds.takes op first second }
{
    match op {
        Op::Equal => same_kind(first, second),
        _ => same_kind(first, Scalar::Int) && same_kind(second, Scalar::Int),
    }
}

fn gives(op: Op) -> Scalar
    ensures { result ≡ given_by op }
{
    match op {
        Op::Add | Op::Sub | Op::Mul => Scalar::Int,
        Op::Less | Op::LessEq | Op::Equal => Scalar::Boolean,
    }
}

/// Whether a message of that kind carries a value of this kind.
pub fn carries_as(kind: Scalar, carried: &Kind) -> bool
    ensures { result ≡ places.is_carried_as kind (carried_of carried.now) }
{
    match (kind, carried) {
        (Scalar::Int, Kind::Int) => true,
        (Scalar::Boolean, Kind::Boolean) => true,
        (Scalar::Text, Kind::Text) => true,
        _ => false,
    }
}

/// Whether a variable that is known so, or isn't known, may take this kind.
pub fn is_free_for(known: Option<Scalar>, kind: Scalar) -> bool
    ensures { result ≡ kinds.is_free_for known kind }
{
    match known {
        Some(before) => same_kind(before, kind),
        None => true,
    }
}
