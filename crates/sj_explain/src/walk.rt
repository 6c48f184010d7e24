//! The walk through a body, statement by statement, up to its first fault.

use crate::context::{Context, Exit, Seen, Site};
use crate::env::Env;
use crate::expressions::{kind_of, want};
use crate::joins::compare;
use crate::marks::{Part, Span};
use crate::pieces::Piece::{Place, Said, Word};
use crate::places::{copied_arm, copied_turn};
use crate::statements::{
    close, delegate, let_be, live, open, other_action, select, send, take_end, take_value,
};
use sj_check::CheckRule;
use sj_lang::{Arms, Deed, Expr, Item, Proto, Scalar, Stmt, StmtArm};

/// Statements in order.
#[cycle(explaining)]
pub(crate) fn block(
    context: Context<'_>,
    env: &mut Env,
    seen: &mut Seen,
    stmts: &[Stmt],
) -> Result<(), Exit> {
    for stmt in stmts {
        let site = seen.enter(Part::Statement, stmt.line);
        statement(context, env, seen, site, &stmt.deed)?;
    }
    Ok(())
}

#[cycle(explaining)]
fn statement(
    context: Context<'_>,
    env: &mut Env,
    seen: &mut Seen,
    site: Site,
    deed: &Deed,
) -> Result<(), Exit> {
    match deed {
        Deed::Send { end, value } => send(context, env, site, *end, value),
        Deed::Delegate { end, sent } => delegate(context, env, site, *end, *sent),
        Deed::Take { end, into, kind } => take_value(context, env, site, *end, *into, *kind),
        Deed::TakeEnd {
            end,
            into,
            protocol,
        } => take_end(context, env, site, *end, *into, *protocol),
        Deed::Select { end, label } => select(context, env, site, *end, *label),
        Deed::Branch { end, arms } => branch(context, env, seen, site, *end, arms),
        Deed::OutWhile { end, count, body } => {
            check_out_while(context, env, site, *end, count)?;
            turn(context, env, seen, site, &[*end], body)
        }
        Deed::InWhile { end, body } => {
            check_in_while(context, env, site, *end)?;
            turn(context, env, seen, site, &[*end], body)
        }
        Deed::Relay { from, to, body } => {
            check_relay(context, env, site, *from, *to)?;
            turn(context, env, seen, site, &[*from, *to], body)
        }
        Deed::If { test, yes, no } => {
            let mut other = copy_behind_test(context, env, site, test)?;
            block(context, env, seen, yes)?;
            block(context, &mut other, seen, no)?;
            join(context, env, site, &other)
        }
        Deed::Let { name, value } => let_be(context, env, site, *name, value),
        Deed::Close { end } => close(context, env, site, *end),
        Deed::Request {
            end,
            protocol,
            party,
        } => open(context, env, site, *end, *protocol, *party),
        Deed::Accept {
            end,
            protocol,
            party,
        } => open(context, env, site, *end, *protocol, *party),
    }
}

// The end of an `outwhile` stands before its loop, and what is counted is a number.
fn check_out_while(
    context: Context<'_>,
    env: &Env,
    site: Site,
    end: u16,
    count: &Expr,
) -> Result<(), Exit> {
    let place = live(context, env, site, 1, end)?;
    let Some(Item::OutLoop(_)) = place.items.first() else {
        return Err(other_action(context, site, 1, end, place, b"`![..]*`"));
    };
    let kind = kind_of(context, env, site, 2, count)?;
    want(context, site, 2, Scalar::Int, kind)
}

// The end of an `inwhile` stands before its loop.
fn check_in_while(context: Context<'_>, env: &Env, site: Site, end: u16) -> Result<(), Exit> {
    let place = live(context, env, site, 1, end)?;
    let Some(Item::InLoop(_)) = place.items.first() else {
        return Err(other_action(context, site, 1, end, place, b"`?[..]*`"));
    };
    Ok(())
}

// The two ends of a relay stand before their loops.
fn check_relay(
    context: Context<'_>,
    env: &Env,
    site: Site,
    from: u16,
    to: u16,
) -> Result<(), Exit> {
    let source = live(context, env, site, 1, from)?;
    let target = live(context, env, site, 2, to)?;
    let Some(Item::InLoop(_)) = source.items.first() else {
        return Err(other_action(context, site, 1, from, source, b"`?[..]*`"));
    };
    let Some(Item::OutLoop(_)) = target.items.first() else {
        return Err(other_action(context, site, 2, to, target, b"`![..]*`"));
    };
    Ok(())
}

// A turn of the loops that stand first at these ends, and then what is after them.
#[cycle(explaining)]
fn turn(
    context: Context<'_>,
    env: &mut Env,
    seen: &mut Seen,
    site: Site,
    ends: &[u16],
    body: &[Stmt],
) -> Result<(), Exit> {
    let mut inner = env.copy(context.alloc)?;
    for end in ends {
        enter(context, &mut inner, *end)?;
    }
    block(context, &mut inner, seen, body)?;
    compare(context, CheckRule::TurnDiffers, site, env, &inner)?;
    for end in ends {
        env.pass(context.alloc, *end)?;
    }
    Ok(())
}

fn enter(context: Context<'_>, env: &mut Env, end: u16) -> Result<(), Exit> {
    if let Some(place) = env.place(end) {
        let inner = copied_turn(context.alloc, place)?;
        env.put(end, inner)?;
    }
    Ok(())
}

// What is known before the blocks of an `if`, once more.
fn copy_behind_test(context: Context<'_>, env: &Env, site: Site, test: &Expr) -> Result<Env, Exit> {
    let kind = kind_of(context, env, site, 1, test)?;
    want(context, site, 1, Scalar::Boolean, kind)?;
    Ok(env.copy(context.alloc)?)
}

// What both blocks of an `if` leave.
fn join(context: Context<'_>, env: &mut Env, site: Site, other: &Env) -> Result<(), Exit> {
    compare(context, CheckRule::ArmsDiffer, site, env, other)?;
    env.keep_common(other);
    Ok(())
}

#[cycle(explaining)]
fn branch(
    context: Context<'_>,
    env: &mut Env,
    seen: &mut Seen,
    site: Site,
    end: u16,
    arms: &[StmtArm],
) -> Result<(), Exit> {
    let place = live(context, env, site, 1, end)?;
    let Some(Item::Branch(choice)) = place.items.first() else {
        return Err(other_action(context, site, 1, end, place, b"`?{..}`"));
    };
    if !are_labels(choice, arms) {
        return Err(other_labels(context, site, end, place));
    }
    let Some((first, rest)) = arms.split_first() else {
        return Err(other_labels(context, site, end, place));
    };
    let mut left = at_arm(context, env, end, first.label)?;
    block(context, &mut left, seen, &first.body)?;
    let mut told = Ok(());
    for arm in rest {
        let mut inner = at_arm(context, env, end, arm.label)?;
        block(context, &mut inner, seen, &arm.body)?;
        if told.is_ok() {
            told = compare(context, CheckRule::ArmsDiffer, site, &left, &inner);
        }
        left.keep_common(&inner);
    }
    told?;
    *env = left;
    Ok(())
}

fn other_labels(context: Context<'_>, site: Site, end: u16, place: &Proto) -> Exit {
    context.stop(
        CheckRule::OtherArms,
        site,
        Span::Token(0),
        &[Said(b"ahead of "), Word(end), Said(b" is "), Place(place)],
    )
}

// What is known in the arm of that label.
fn at_arm(context: Context<'_>, env: &Env, end: u16, label: u16) -> Result<Env, Exit> {
    let mut inner = env.copy(context.alloc)?;
    if let Some(place) = env.place(end) {
        if let Some(Item::Branch(choice)) = place.items.first() {
            if let Some(arm) = copied_arm(context.alloc, place, choice, label)? {
                inner.put(end, arm)?;
            }
        }
    }
    Ok(inner)
}

// Whether the arms are the labels of the choice, each once.
fn are_labels(choice: &Arms, arms: &[StmtArm]) -> bool {
    if arms.len() != choice.arms.len() {
        return false;
    }
    for wanted in &choice.arms {
        if !arms.iter().any(|a| a.label == wanted.label) {
            return false;
        }
    }
    true
}
