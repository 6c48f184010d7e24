//! Copies of expressions and statements.
ghost use Rattle.std.specs.Prelude.{◌≡◌, IfOk, map};
ghost use Rattle.sj_lang.specs.CodeView.{term_of, stmt_of, deed_of, arm_of};

use crate::party::{Deed, Expr, Stmt, StmtArm};
use sj_base::NoMemory;
use std::alloc::Global;

/// An equal expression.
pub fn copied_expr(alloc: Global, e: &Expr) -> Result<Expr, NoMemory>
    ensures { IfOk result (λ f. term_of f ≡ term_of e.now) }
{
    match e {
        Expr::Int(n) => Ok(Expr::Int(*n)),
        Expr::Bool(b) => Ok(Expr::Bool(*b)),
        Expr::Text(n) => Ok(Expr::Text(*n)),
        Expr::Var(n) => Ok(Expr::Var(*n)),
        Expr::Not(f) => Ok(Expr::Not(Box::new(alloc, copied_expr(alloc, f)?)?)),
        Expr::Two(op, f, g) => {
            let left = Box::new(alloc, copied_expr(alloc, f)?)?;
            let right = Box::new(alloc, copied_expr(alloc, g)?)?;
            Ok(Expr::Two(*op, left, right))
        }
    }
}

/// Equal statements.
#[cycle(block)]
pub fn copied_block(alloc: Global, stmts: &[Stmt]) -> Result<Vec<Stmt>, NoMemory>
    ensures { IfOk result (λ out. map stmt_of out.items ≡ map stmt_of stmts.now) }
{
    let mut out = Vec::new(alloc);
    for stmt in stmts {
        let deed = copied_deed(alloc, &stmt.deed)?;
        let line = stmt.line;
        out.push(Stmt { line, deed })?;
    }
    Ok(out)
}

#[cycle(block)]
fn copied_arms(alloc: Global, arms: &[StmtArm]) -> Result<Vec<StmtArm>, NoMemory>
    ensures { IfOk result (λ out. map arm_of out.items ≡ map arm_of arms.now) }
{
    let mut out = Vec::new(alloc);
    for arm in arms {
        let body = copied_block(alloc, &arm.body)?;
        let label = arm.label;
        out.push(StmtArm { label, body })?;
    }
    Ok(out)
}

#[cycle(block)]
fn copied_deed(alloc: Global, deed: &Deed) -> Result<Deed, NoMemory>
    ensures { IfOk result (λ d. deed_of d ≡ deed_of deed.now) }
{
    match deed {
        Deed::Send { end, value } => {
            let value = copied_expr(alloc, value)?;
            Ok(Deed::Send { end: *end, value })
        }
        Deed::Delegate { end, sent } => Ok(Deed::Delegate {
            end: *end,
            sent: *sent,
        }),
        Deed::Take { end, into, kind } => Ok(Deed::Take {
            end: *end,
            into: *into,
            kind: *kind,
        }),
        Deed::TakeEnd {
            end,
            into,
            protocol,
        } => Ok(Deed::TakeEnd {
            end: *end,
            into: *into,
            protocol: *protocol,
        }),
        Deed::Select { end, label } => Ok(Deed::Select {
            end: *end,
            label: *label,
        }),
        Deed::Branch { end, arms } => {
            let arms = copied_arms(alloc, arms)?;
            Ok(Deed::Branch { end: *end, arms })
        }
        Deed::OutWhile { end, count, body } => {
            let count = copied_expr(alloc, count)?;
            let body = copied_block(alloc, body)?;
            Ok(Deed::OutWhile {
                end: *end,
                count,
                body,
            })
        }
        Deed::InWhile { end, body } => {
            let body = copied_block(alloc, body)?;
            Ok(Deed::InWhile { end: *end, body })
        }
        Deed::Relay { from, to, body } => {
            let body = copied_block(alloc, body)?;
            Ok(Deed::Relay {
                from: *from,
                to: *to,
                body,
            })
        }
        Deed::If { test, yes, no } => {
            let test = copied_expr(alloc, test)?;
            let yes = copied_block(alloc, yes)?;
            let no = copied_block(alloc, no)?;
            Ok(Deed::If { test, yes, no })
        }
        Deed::Let { name, value } => {
            let value = copied_expr(alloc, value)?;
            Ok(Deed::Let { name: *name, value })
        }
        Deed::Close { end } => Ok(Deed::Close { end: *end }),
        Deed::Request {
            end,
            protocol,
            party,
        } => Ok(Deed::Request {
            end: *end,
            protocol: *protocol,
            party: *party,
        }),
        Deed::Accept {
            end,
            protocol,
            party,
        } => Ok(Deed::Accept {
            end: *end,
            protocol: *protocol,
            party: *party,
        }),
    }
}
