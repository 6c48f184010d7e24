//! What a statement does next, and which messages it can take.
ghost use Rattle.std.specs.Prelude.{◌≡◌, ◌<◌, ◌^◌, List, ◌∷◌, Some, None, length, option_map, unwrap_or};
ghost use Rattle.sj_lang.specs.Code.{Code};
ghost use Rattle.sj_lang.specs.CodeView.{term_of};
ghost use Rattle.sj_lang.specs.FileAt.{number_of_name};
ghost use Rattle.sj_machine.specs.Arena.{deed_in, arms_in};
ghost use Rattle.sj_machine.specs.Frames.{more_at, thing_at};
ghost use Rattle.sj_machine.specs.Table.{vars_in};
ghost use Rattle.sj_semantics.specs.declared.Want.TheVariants.{Ended};
ghost use Rattle.sj_semantics.specs.Program.{Thing};
ghost use Rattle.sj_semantics.specs.Value.{message_of, worth};
ghost use Rattle.sj_semantics.specs.Fitting.{is_of_kind, fits_todo, names_arm};
ghost use Rattle.sj_semantics.specs.Wants.{want_delegate, want_of_todo, want_send, want_take};

use crate::arena::{ArmAt, Op};
use crate::ends::end_named;
use crate::stack::Stage;
use crate::values::{turns, worth_of};
use sj_base::{EndId, Msg};
use sj_lang::{Expr, Scalar};
use sj_semantics::{Awaits, Value, Want};

/// What a statement does next. One that names what isn't there does nothing more.
pub fn want_at(
    peers: &[u16],
    vars: &[Option<Value>],
    ends: &[(u16, EndId)],
    stage: Stage,
    op: &Op,
) -> Want
    requires { length peers.now < 2 ^ 16 }
    ensures { (codes : List Code) (rest : List Thing) →
        result ≡ unwrap_or (want_of_todo peers.now (vars_in vars.now) ends.now
        (thing_at stage (deed_in codes op.now) ∷ rest)) Ended }
{
    match op {
        Op::Send { end, value } => sends(end_named(ends, *end), message_in(vars, value)),
        Op::Delegate { end, sent } => delegates(end_named(ends, *end), end_named(ends, *sent)),
        Op::Take { end, kind, .. } => takes(end_named(ends, *end), Awaits::Value(*kind)),
        Op::TakeEnd { end, protocol, .. } => takes(
            end_named(ends, *end),
            Awaits::Session(*protocol),
        ),
        Op::Select { end, label } => sends(end_named(ends, *end), Some(Msg::Label(*label))),
        Op::Branch { end, .. } => takes(end_named(ends, *end), Awaits::OneOf),
        Op::OutWhile { end, count, .. } => sends(
            end_named(ends, *end),
            more_in(vars, stage, count),
        ),
        Op::InWhile { end, .. } => takes(end_named(ends, *end), Awaits::MoreOrStop),
        Op::Relay { from, to, .. } => match stage {
            Stage::Passing(more) => sends(end_named(ends, *to), Some(Msg::More(more))),
            _ => takes(end_named(ends, *from), Awaits::MoreOrStop),
        },
        Op::If { test, .. } => match worth_of(vars, test) {
            Some(Value::Boolean(_)) => Want::Local,
            _ => Want::Ended,
        },
        Op::Let { value, .. } => match worth_of(vars, value) {
            Some(_) => Want::Local,
            None => Want::Ended,
        },
        Op::Close { end } => match end_named(ends, *end) {
            Some(end) => Want::Close { end },
            None => Want::Ended,
        },
        Op::Request {
            protocol,
            party,
            ..
        } => Want::Request {
            protocol: *protocol,
            to: number_named(peers, *party),
        },
        Op::Accept {
            protocol,
            party,
            ..
        } => Want::Accept {
            protocol: *protocol,
            from: number_named(peers, *party),
        },
    }
}

/// The number of the first party of that name, or how many there are.
fn number_named(peers: &[u16], name: u16) -> u16
    requires { length peers.now < 2 ^ 16 }
    ensures { result ≡ number_of_name peers.now name }
{
    let mut at = 0;
    while at < peers.len() {
        if peers[at] == name {
            return at as u16;
        }
        at += 1;
    }
    at as u16
}

fn sends(end: Option<EndId>, msg: Option<Msg>) -> Want
    ensures { result ≡ unwrap_or (want_send end msg) Ended }
{
    match (end, msg) {
        (Some(end), Some(msg)) => Want::Send { end, msg },
        _ => Want::Ended,
    }
}

fn delegates(end: Option<EndId>, sent: Option<EndId>) -> Want
    ensures { result ≡ unwrap_or (want_delegate end sent) Ended }
{
    match (end, sent) {
        (Some(end), Some(sent)) => Want::Delegate { end, sent },
        _ => Want::Ended,
    }
}

fn takes(end: Option<EndId>, awaits: Awaits) -> Want
    ensures { result ≡ unwrap_or (want_take end awaits) Ended }
{
    match end {
        Some(end) => Want::Take { end, awaits },
        None => Want::Ended,
    }
}

/// The message that carries an expression's value.
fn message_in(vars: &[Option<Value>], e: &Expr) -> Option<Msg>
    ensures { result ≡ option_map message_of (worth (vars_in vars.now) (term_of e.now)) }
{
    match worth_of(vars, e) {
        Some(Value::Int(n)) => Some(Msg::Int(n)),
        Some(Value::Boolean(b)) => Some(Msg::Bool(b)),
        Some(Value::Text(n)) => Some(Msg::Text(n)),
        None => None,
    }
}

/// Whether a loop that sends says more, at its beginning by what its count comes to.
fn more_in(vars: &[Option<Value>], stage: Stage, count: &Expr) -> Option<Msg>
    ensures { result ≡ more_at (vars_in vars.now) stage (term_of count.now) }
{
    match stage {
        Stage::Turns(left) => Some(Msg::More(left > 0)),
        _ => match worth_of(vars, count) {
            Some(value) => match turns(value) {
                Some(left) => Some(Msg::More(left > 0)),
                None => None,
            },
            None => None,
        },
    }
}

/// Whether a statement can take the message.
pub fn fits_at(stage: Stage, op: &Op, msg: &Msg) -> bool
    ensures { (codes : List Code) (rest : List Thing) →
        result ≡ fits_todo (thing_at stage (deed_in codes op.now) ∷ rest) msg.now }
{
    match op {
        Op::Take { kind, .. } => is_of(*kind, msg),
        Op::TakeEnd { .. } => matches!(msg, Msg::Sess { .. }),
        Op::Branch { arms, .. } => has_arm(arms, msg),
        Op::InWhile { .. } => matches!(msg, Msg::More(_)),
        Op::Relay { .. } => match stage {
            Stage::Passing(_) => false,
            _ => matches!(msg, Msg::More(_)),
        },
        _ => false,
    }
}

fn is_of(kind: Scalar, msg: &Msg) -> bool
    ensures { result ≡ is_of_kind kind msg.now }
{
    match (kind, msg) {
        (Scalar::Int, Msg::Int(_)) => true,
        (Scalar::Boolean, Msg::Bool(_)) => true,
        (Scalar::Text, Msg::Text(_)) => true,
        _ => false,
    }
}

fn has_arm(arms: &[ArmAt], msg: &Msg) -> bool
    ensures { (codes : List Code) → result ≡ names_arm (arms_in codes arms.now) msg.now }
{
    let Msg::Label(label) = *msg else {
        return false;
    };
    for arm in arms {
        if arm.label == label {
            return true;
        }
    }
    false
}
