//! Where the steps of a statement lead.
ghost use Rattle.std.specs.Prelude.{◌≡◌, ◌<◌, ℕ, List, ◌∷◌};
ghost use Rattle.sj_lang.specs.Code.{Code};
ghost use Rattle.sj_lang.specs.CodeView.{term_of};
ghost use Rattle.sj_machine.specs.Arena.{AreBelow, IsBelow, IsOpBelow, deed_in, arms_in, code_in};
ghost use Rattle.sj_machine.specs.Frames.{LeadsBelow, thing_at, todo_after, turn_with, turns_at};
ghost use Rattle.sj_machine.specs.Table.{vars_in};
ghost use Rattle.sj_machine.specs.declared.stack.Stage.{Stage};
ghost use Rattle.sj_semantics.specs.Program.{Thing};
ghost use Rattle.sj_semantics.specs.Steps.{arm_taken, todo_after_local, todo_after_sent, todo_after_took};

use crate::arena::{ArmAt, Op};
use crate::stack::{After, Stage};
use crate::values::{turns, worth_of};
use sj_base::Msg;
use sj_lang::Expr;
use sj_semantics::Value;

/// After a step without a message.
pub fn after_local(vars: &[Option<Value>], op: &Op) -> After
    ensures todo { (codes : List Code) (stage : Stage) (rest : List Thing) →
        todo_after_local (vars_in vars.now) (thing_at stage (deed_in codes op.now) ∷ rest)
        ≡ todo_after codes (deed_in codes op.now) result rest }
    ensures below { (k : ℕ) → IsOpBelow k op.now → LeadsBelow k result }
{
    match op {
        Op::If { test, yes, no } => match worth_of(vars, test) {
            Some(Value::Boolean(true)) => After::Past(*yes),
            _ => After::Past(*no),
        },
        _ => After::Past(None),
    }
}

/// After a step that sends.
pub fn after_sent(vars: &[Option<Value>], stage: Stage, op: &Op) -> After
    ensures todo { (codes : List Code) (rest : List Thing) →
        todo_after_sent (vars_in vars.now) (thing_at stage (deed_in codes op.now) ∷ rest)
        ≡ todo_after codes (deed_in codes op.now) result rest }
    ensures below { (k : ℕ) → IsOpBelow k op.now → LeadsBelow k result }
{
    match op {
        Op::OutWhile { count, body, .. } => turned(turns_left(vars, stage, count), *body),
        Op::Relay { body, .. } => match stage {
            Stage::Passing(true) => After::Stays(Stage::Fresh, *body),
            _ => After::Past(None),
        },
        _ => After::Past(None),
    }
}

/// How many turns a loop that sends has left.
fn turns_left(vars: &[Option<Value>], stage: Stage, count: &Expr) -> u16
    ensures { result ≡ turns_at (vars_in vars.now) stage (term_of count.now) }
{
    match stage {
        Stage::Turns(left) => left,
        _ => match worth_of(vars, count) {
            Some(value) => turns(value).unwrap_or(0),
            None => 0,
        },
    }
}

/// A loop with turns left begins the next one.
fn turned(left: u16, body: Option<usize>) -> After
    ensures { result ≡ turn_with left body }
{
    if left == 0 {
        After::Past(None)
    } else {
        After::Stays(Stage::Turns(left - 1), body)
    }
}

/// After a step that took a message.
pub fn after_took(stage: Stage, op: &Op, msg: Msg) -> After
    ensures todo { (codes : List Code) (rest : List Thing) →
        todo_after_took (thing_at stage (deed_in codes op.now) ∷ rest) msg
        ≡ todo_after codes (deed_in codes op.now) result rest }
    ensures below { (k : ℕ) → IsOpBelow k op.now → LeadsBelow k result }
{
    match op {
        Op::Branch { arms, .. } => After::Past(arm_for(arms, msg)),
        Op::InWhile { body, .. } => match msg {
            Msg::More(true) => After::Stays(stage, *body),
            _ => After::Past(None),
        },
        Op::Relay { .. } => match stage {
            Stage::Passing(_) => After::Past(None),
            _ => After::Stays(Stage::Passing(msg == Msg::More(true)), None),
        },
        _ => After::Past(None),
    }
}

/// The arm of the label that came, and the empty one where none has it.
fn arm_for(arms: &[ArmAt], msg: Msg) -> Option<usize>
    ensures arm { (codes : List Code) →
        code_in codes result ≡ arm_taken (arms_in codes arms.now) msg }
    ensures below { (k : ℕ) → AreBelow k arms.now → IsBelow k result }
{
    let Msg::Label(label) = msg else {
        return None;
    };
    for arm in arms {
        if arm.label == label {
            return arm.body;
        }
    }
    None
}
