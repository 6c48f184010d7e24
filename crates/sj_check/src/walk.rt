//! The walk through a body, statement by statement.
#![tactic(auto, using(crate::proofs::SeenLemmas::steps))]

ghost use Rattle.std.specs.Prelude.{◌≡◌, map, IfOk};
ghost use Rattle.sj_lang.specs.CodeView.{term_of, code_of, stmt_of, arm_of, branches_of};
ghost use Rattle.sj_lang.specs.Code as code;
ghost use Rattle.sj_acceptance.specs.Tests.{branches_tests, after_branches};
ghost use Rattle.sj_acceptance.specs.Tests.{stmt_tests, after_stmt, code_tests, after_code};
ghost use Rattle.sj_acceptance.specs.Arms.{is_one, common_env};
ghost use Rattle.sj_check.specs.Seen.{defs_in, names_in, env_in};
ghost use Rattle.sj_check.specs.Told.{Judges, Walks, Does};

use crate::CheckRefusal;
use crate::env::Env;
use crate::joins::{both, branching, join, tested};
use crate::kinds::{expr_kind, same_kind};
use crate::moves::{at_arm, enter, pass, pass_both};
use crate::name_lists::has_same_ends_at;
use crate::places::is_loop;
use crate::rules::{CheckRule, broken};
use crate::statements::{close, delegate, let_be, open, select, send, take_end, take_value};
use crate::tables::Protocols;
use sj_lang::{Deed, Expr, Scalar, Stmt, StmtArm, Way};

/// Statements in order.
#[cycle(walk)]
pub fn block(protocols: &Protocols, env: &mut Env, stmts: &[Stmt]) -> Result<(), CheckRefusal>
    ensures { let ps = defs_in protocols.now in
        let old = env_in protocols.now env.old in
        let tests = code_tests ps (names_in protocols.now) old (code_of stmts.now) in
        Walks tests (after_code ps old (code_of stmts.now)) (env_in protocols.now env.new) result }
{
    for stmt in stmts {
        statement(protocols, env, stmt)?;
    }
    Ok(())
}

#[cycle(walk)]
fn statement(protocols: &Protocols, env: &mut Env, stmt: &Stmt) -> Result<(), CheckRefusal>
    ensures { let ps = defs_in protocols.now in
        let old = env_in protocols.now env.old in
        let tests = stmt_tests ps (names_in protocols.now) old (stmt_of stmt.now) in
        Walks tests (after_stmt ps old (stmt_of stmt.now)) (env_in protocols.now env.new) result }
{
    let line = stmt.line;
    match &stmt.deed {
        Deed::Send { end, value } => send(protocols, env, line, *end, value),
        Deed::Delegate { end, sent } => delegate(protocols, env, line, *end, *sent),
        Deed::Take { end, into, kind } => take_value(protocols, env, line, *end, *into, *kind),
        Deed::TakeEnd {
            end,
            into,
            protocol,
        } => take_end(protocols, env, line, *end, *into, *protocol),
        Deed::Select { end, label } => select(protocols, env, line, *end, *label),
        Deed::Branch { end, arms } => {
            branching(protocols, env, line, *end, arms)?;
            let (left, agree) = all_arms(protocols, env, *end, arms)?;
            if !agree {
                return Err(broken(CheckRule::ArmsDiffer, line));
            }
            *env = left;
            Ok(())
        }
        Deed::OutWhile { end, count, body } => out_while(protocols, env, line, *end, body, count),
        Deed::InWhile { end, body } => in_while(protocols, env, line, *end, body),
        Deed::Relay { from, to, body } => relay(protocols, env, line, *from, *to, body),
        Deed::If { test, yes, no } => {
            let mut other = tested(env, line, test)?;
            block(protocols, env, yes)?;
            block(protocols, &mut other, no)?;
            let named = env.names(&[], yes, no)?;
            join(protocols, env, line, &other, &named)
        }
        Deed::Let { name, value } => let_be(protocols, env, line, *name, value),
        Deed::Close { end } => close(protocols, env, line, *end),
        Deed::Request {
            end,
            protocol,
            party,
        } => open(protocols, env, line, *end, *protocol, *party),
        Deed::Accept {
            end,
            protocol,
            party,
        } => open(protocols, env, line, *end, *protocol, *party),
    }
}

#[cycle(walk)]
fn out_while(
    protocols: &Protocols,
    env: &mut Env,
    line: u32,
    end: u16,
    body: &[Stmt],
    count: &Expr,
) -> Result<(), CheckRefusal>
    ensures { let deed = code.outwhile end (term_of count.now) (code_of body.now) in
        let old = env_in protocols.now env.old in
        Does (defs_in protocols.now) (names_in protocols.now) line deed old (env_in protocols.now env.new) result }
{
    let Some(spot) = env.spot(end) else {
        return Err(broken(CheckRule::NotThere, line));
    };
    if !is_loop(Way::Out, &protocols.table, spot) {
        return Err(broken(CheckRule::OtherAction, line));
    }
    let kind = expr_kind(env.variables(), line, count)?;
    if !same_kind(kind, Scalar::Int) {
        return Err(broken(CheckRule::OtherKind, line));
    }
    let mut inner = env.copied()?;
    enter(protocols, env, &mut inner, end)?;
    block(protocols, &mut inner, body)?;
    let named = env.names(&[end], &[], body)?;
    if !has_same_ends_at(protocols, env, &inner, &named) {
        return Err(broken(CheckRule::TurnDiffers, line));
    }
    drop(inner);
    pass(protocols, env, end)?;
    Ok(())
}

#[cycle(walk)]
fn in_while(
    protocols: &Protocols,
    env: &mut Env,
    line: u32,
    end: u16,
    body: &[Stmt],
) -> Result<(), CheckRefusal>
    ensures { let deed = code.inwhile end (code_of body.now) in
        let old = env_in protocols.now env.old in
        Does (defs_in protocols.now) (names_in protocols.now) line deed old (env_in protocols.now env.new) result }
{
    let Some(spot) = env.spot(end) else {
        return Err(broken(CheckRule::NotThere, line));
    };
    if !is_loop(Way::Into, &protocols.table, spot) {
        return Err(broken(CheckRule::OtherAction, line));
    }
    let mut turn = env.copied()?;
    enter(protocols, env, &mut turn, end)?;
    block(protocols, &mut turn, body)?;
    let named = env.names(&[end], &[], body)?;
    if !has_same_ends_at(protocols, env, &turn, &named) {
        return Err(broken(CheckRule::TurnDiffers, line));
    }
    drop(turn);
    pass(protocols, env, end)?;
    Ok(())
}

#[cycle(walk)]
fn relay(
    protocols: &Protocols,
    env: &mut Env,
    line: u32,
    from: u16,
    to: u16,
    body: &[Stmt],
) -> Result<(), CheckRefusal>
    ensures { let deed = code.relay from to (code_of body.now) in
        let old = env_in protocols.now env.old in
        Does (defs_in protocols.now) (names_in protocols.now) line deed old (env_in protocols.now env.new) result }
{
    let Some(source) = env.spot(from) else {
        return Err(broken(CheckRule::NotThere, line));
    };
    let Some(target) = env.spot(to) else {
        return Err(broken(CheckRule::NotThere, line));
    };
    if !is_loop(Way::Into, &protocols.table, source)
        || !is_loop(Way::Out, &protocols.table, target)
    {
        return Err(broken(CheckRule::OtherAction, line));
    }
    let mut inner = env.copied()?;
    enter(protocols, env, &mut inner, from)?;
    enter(protocols, env, &mut inner, to)?;
    block(protocols, &mut inner, body)?;
    let named = env.names(&[from, to], &[], body)?;
    if !has_same_ends_at(protocols, env, &inner, &named) {
        return Err(broken(CheckRule::TurnDiffers, line));
    }
    drop(inner);
    pass_both(protocols, env, from, to)?;
    Ok(())
}

// Walks through the arms of an `inbranch`. Answers what they leave together, and whether all leave
// the same live ends and places.
#[cycle(walk)]
fn all_arms(
    protocols: &Protocols,
    env: &Env,
    end: u16,
    arms: &[StmtArm],
) -> Result<(Env, bool), CheckRefusal>
    ensures tests { let bs = branches_of (map arm_of arms.now) in
        Judges (branches_tests (defs_in protocols.now) (names_in protocols.now) (env_in protocols.now env.now) end bs) result }
    ensures joined { let bs = branches_of (map arm_of arms.now) in
        let left = after_branches (defs_in protocols.now) (env_in protocols.now env.now) end bs in
        IfOk result (λ r. env_in protocols.now r.0 ≡ common_env left) }
    ensures agree { let bs = branches_of (map arm_of arms.now) in
        let left = after_branches (defs_in protocols.now) (env_in protocols.now env.now) end bs in
        IfOk result (λ r. r.1 ≡ is_one left) }
{
    if arms.is_empty() {
        return Ok((env.emptied(), true));
    }
    let first = &arms[0];
    let mut left = at_arm(protocols, env, end, first.label)?;
    block(protocols, &mut left, &first.body)?;
    let mut agree = true;
    for i in 1..arms.len() {
        let arm = &arms[i];
        let mut inner = at_arm(protocols, env, end, arm.label)?;
        block(protocols, &mut inner, &arm.body)?;
        let named = env.names(&[end], &first.body, &arm.body)?;
        agree = both(agree, has_same_ends_at(protocols, &left, &inner, &named));
        left.keep_common(&inner);
    }
    Ok((left, agree))
}
