//! An arena of a program's statements.
ghost use Rattle.std.specs.Prelude.{◌≡◌, length, IfOk, map};
ghost use Rattle.sj_lang.specs.Code.{at, stmt_then};
ghost use Rattle.sj_lang.specs.CodeView.{arm_of, branches_of, code_of, deed_of};
ghost use Rattle.sj_machine.specs.Arena.{AreBelow, Grown, IsBackward, IsBelow, IsOpBelow, deed_in, arms_in, code_in, codes_of};

use crate::arena::{ArmAt, CodeNode, Op};
use sj_base::NoMemory;
use sj_lang::{Deed, Stmt, StmtArm, copied_expr};
use std::alloc::Global;

/// Puts a block's statements at the arena's end, the last one first, and answers where the block
/// begins.
#[cycle(build)]
pub fn add_block(
    alloc: Global,
    nodes: &mut Vec<CodeNode>,
    stmts: &[Stmt],
) -> Result<Option<usize>, NoMemory>
    requires { IsBackward 0 nodes.old.items }
    ensures code { IfOk result (λ b. code_in (codes_of nodes.new.items) b ≡ code_of stmts.now) }
    ensures below { IfOk result (λ b. IsBelow (length nodes.new.items) b) }
    ensures grown { IfOk result (λ _. Grown nodes.old.items nodes.new.items) }
{
    let mut next = None;
    let mut at = stmts.len();
    while at > 0 {
        at -= 1;
        let stmt = &stmts[at];
        let op = add_op(alloc, nodes, &stmt.deed)?;
        next = Some(add_node(nodes, stmt.line, op, next)?);
    }
    Ok(next)
}

/// Puts a node at the arena's end.
fn add_node(
    nodes: &mut Vec<CodeNode>,
    line: u32,
    op: Op,
    next: Option<usize>,
) -> Result<usize, NoMemory>
    requires back { IsBackward 0 nodes.old.items }
    requires next { IsBelow (length nodes.old.items) next }
    requires op { IsOpBelow (length nodes.old.items) op }
    ensures code { IfOk result (λ i. code_in (codes_of nodes.new.items) (Some i)
        ≡ stmt_then (at line (deed_in (codes_of nodes.old.items) op))
        (code_in (codes_of nodes.old.items) next)) }
    ensures below { IfOk result (λ i. IsBelow (length nodes.new.items) (Some i)) }
    ensures grown { IfOk result (λ _. Grown nodes.old.items nodes.new.items) }
{
    let here = nodes.len();
    nodes.push(CodeNode { line, op, next })?;
    Ok(here)
}

#[cycle(build)]
fn add_op(alloc: Global, nodes: &mut Vec<CodeNode>, deed: &Deed) -> Result<Op, NoMemory>
    requires { IsBackward 0 nodes.old.items }
    ensures deed { IfOk result (λ op. deed_in (codes_of nodes.new.items) op ≡ deed_of deed.now) }
    ensures below { IfOk result (λ op. IsOpBelow (length nodes.new.items) op) }
    ensures grown { IfOk result (λ _. Grown nodes.old.items nodes.new.items) }
{
    match deed {
        Deed::Send { end, value } => {
            let value = copied_expr(alloc, value)?;
            Ok(Op::Send { end: *end, value })
        }
        Deed::Delegate { end, sent } => Ok(Op::Delegate {
            end: *end,
            sent: *sent,
        }),
        Deed::Take { end, into, kind } => Ok(Op::Take {
            end: *end,
            into: *into,
            kind: *kind,
        }),
        Deed::TakeEnd {
            end,
            into,
            protocol,
        } => Ok(Op::TakeEnd {
            end: *end,
            into: *into,
            protocol: *protocol,
        }),
        Deed::Select { end, label } => Ok(Op::Select {
            end: *end,
            label: *label,
        }),
        Deed::Branch { end, arms } => {
            let arms = add_arms(alloc, nodes, arms)?;
            Ok(Op::Branch { end: *end, arms })
        }
        Deed::OutWhile { end, count, body } => {
            let count = copied_expr(alloc, count)?;
            let body = add_block(alloc, nodes, body)?;
            Ok(Op::OutWhile {
                end: *end,
                count,
                body,
            })
        }
        Deed::InWhile { end, body } => {
            let body = add_block(alloc, nodes, body)?;
            Ok(Op::InWhile { end: *end, body })
        }
        Deed::Relay { from, to, body } => {
            let body = add_block(alloc, nodes, body)?;
            Ok(Op::Relay {
                from: *from,
                to: *to,
                body,
            })
        }
        Deed::If { test, yes, no } => {
            let test = copied_expr(alloc, test)?;
            let yes = add_block(alloc, nodes, yes)?;
            let no = add_block(alloc, nodes, no)?;
            Ok(Op::If { test, yes, no })
        }
        Deed::Let { name, value } => {
            let value = copied_expr(alloc, value)?;
            Ok(Op::Let { name: *name, value })
        }
        Deed::Close { end } => Ok(Op::Close { end: *end }),
        Deed::Request {
            end,
            protocol,
            party,
        } => Ok(Op::Request {
            end: *end,
            protocol: *protocol,
            party: *party,
        }),
        Deed::Accept {
            end,
            protocol,
            party,
        } => Ok(Op::Accept {
            end: *end,
            protocol: *protocol,
            party: *party,
        }),
    }
}

#[cycle(build)]
fn add_arms(
    alloc: Global,
    nodes: &mut Vec<CodeNode>,
    arms: &[StmtArm],
) -> Result<Vec<ArmAt>, NoMemory>
    requires { IsBackward 0 nodes.old.items }
    ensures arms { IfOk result (λ out.
        arms_in (codes_of nodes.new.items) out.items ≡ branches_of (map arm_of arms.now)) }
    ensures below { IfOk result (λ out. AreBelow (length nodes.new.items) out.items) }
    ensures grown { IfOk result (λ _. Grown nodes.old.items nodes.new.items) }
{
    let mut out = Vec::new(alloc);
    for arm in arms {
        let body = add_block(alloc, nodes, &arm.body)?;
        let label = arm.label;
        out.push(ArmAt { label, body })?;
    }
    Ok(out)
}
