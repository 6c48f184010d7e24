//! The kind of an expression, or its first fault.

use crate::context::{Context, Exit, Site, stop_with};
use crate::env::Env;
use crate::joins::put_variables;
use crate::marks::Span;
use crate::pieces::Piece::{Said, Scalar as KindName, Word};
use sj_check::CheckRule;
use sj_lang::{Expr, Op, Scalar};

/// The kind of an expression that begins with that token of its statement.
pub(crate) fn kind_of(
    context: Context<'_>,
    env: &Env,
    site: Site,
    from: usize,
    e: &Expr,
) -> Result<Scalar, Exit> {
    match e {
        Expr::Int(_) => Ok(Scalar::Int),
        Expr::Bool(_) => Ok(Scalar::Boolean),
        Expr::Text(_) => Ok(Scalar::Text),
        Expr::Var(name) => match env.kind(*name) {
            Some(kind) => Ok(kind),
            None => Err(tell_unknown(context, env, site, from, *name)),
        },
        Expr::Not(f) => {
            let kind = kind_of(context, env, site, from, f)?;
            want(context, site, from, Scalar::Boolean, kind)?;
            Ok(Scalar::Boolean)
        }
        Expr::Two(op, f, g) => {
            let left = kind_of(context, env, site, from, f)?;
            let right = kind_of(context, env, site, from, g)?;
            let operand = if *op == Op::Equal { left } else { Scalar::Int };
            want(context, site, from, operand, left)?;
            want(context, site, from, operand, right)?;
            Ok(kind_from(*op))
        }
    }
}

fn kind_from(op: Op) -> Scalar {
    match op {
        Op::Add | Op::Sub | Op::Mul => Scalar::Int,
        Op::Less | Op::LessEq | Op::Equal => Scalar::Boolean,
    }
}

fn tell_unknown(context: Context<'_>, env: &Env, site: Site, from: usize, name: u16) -> Exit {
    let mut knew = Vec::new(context.alloc);
    match put_variables(context, &mut knew, env, name) {
        Ok(()) => stop_with(CheckRule::NotThere, site, Span::Word(from, name), knew),
        Err(_) => Exit::NoMemory,
    }
}

/// An operand or a value of the one kind, where the other is wanted.
pub(crate) fn want(
    context: Context<'_>,
    site: Site,
    from: usize,
    kind: Scalar,
    operand: Scalar,
) -> Result<(), Exit> {
    if operand == kind {
        return Ok(());
    }
    Err(context.stop(
        CheckRule::OtherKind,
        site,
        Span::Value(from),
        &[
            Said(b"what is of kind "),
            KindName(operand),
            Said(b" stands here where "),
            KindName(kind),
            Said(b" is wanted"),
        ],
    ))
}
