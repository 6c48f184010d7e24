//! What the steps of a statement do to variables and to ends.
ghost use Rattle.std.specs.Prelude.{◌≡◌, ◌≤◌, ℕ, List, ◌∷◌, length, vec_capacity};
ghost use Rattle.sj_lang.specs.Code.{Code};
ghost use Rattle.sj_machine.specs.Arena.{deed_in};
ghost use Rattle.sj_machine.specs.Frames.{thing_at};
ghost use Rattle.sj_machine.specs.Names.{AreNamedOnce, BindsBelow};
ghost use Rattle.sj_machine.specs.Opens.{ends_after_opened};
ghost use Rattle.sj_machine.specs.Table.{vars_in};
ghost use Rattle.sj_machine.specs.declared.stack.Stage.{Stage};
ghost use Rattle.sj_semantics.specs.Program.{Thing};
ghost use Rattle.sj_semantics.specs.Steps.{ends_after_closed, ends_after_sent, ends_after_took};
ghost use Rattle.sj_semantics.specs.Steps.{name_opened, vars_after_local, vars_after_took};

use crate::arena::Op;
use crate::ends::{bind, unbind};
use crate::values::{assign, worth_of};
use sj_base::{EndId, Msg};
use sj_semantics::Value;

/// A `let` gives its variable the value.
pub fn vars_local(vars: &mut [Option<Value>], op: &Op)
    requires { BindsBelow (length vars.old) op.now }
    ensures { (codes : List Code) (stage : Stage) (rest : List Thing) →
        vars_in vars.new
        ≡ vars_after_local (vars_in vars.old) (thing_at stage (deed_in codes op.now) ∷ rest) }
{
    if let Op::Let { name, value } = op {
        if let Some(value) = worth_of(vars, value) {
            assign(vars, *name, value);
        }
    }
}

/// A value that was taken goes into its variable.
pub fn vars_took(vars: &mut [Option<Value>], op: &Op, msg: Msg)
    requires { BindsBelow (length vars.old) op.now }
    ensures { (codes : List Code) (stage : Stage) (rest : List Thing) →
        vars_in vars.new
        ≡ vars_after_took (vars_in vars.old) (thing_at stage (deed_in codes op.now) ∷ rest) msg }
{
    if let Op::Take { into, .. } = op {
        match msg {
            Msg::Int(n) => assign(vars, *into, Value::Int(n)),
            Msg::Bool(b) => assign(vars, *into, Value::Boolean(b)),
            Msg::Text(n) => assign(vars, *into, Value::Text(n)),
            _ => {}
        }
    }
}

/// A delegated end is no longer bound.
pub fn ends_sent(ends: &mut Vec<(u16, EndId)>, op: &Op)
    ensures ends { (codes : List Code) (stage : Stage) (rest : List Thing) →
        ends.new.items
        ≡ ends_after_sent ends.old.items (thing_at stage (deed_in codes op.now) ∷ rest) }
    ensures once { (size : ℕ) → AreNamedOnce size ends.old.items →
        AreNamedOnce size ends.new.items }
    ensures room { vec_capacity ends.old ≤ vec_capacity ends.new }
{
    if let Op::Delegate { sent, .. } = op {
        unbind(ends, *sent);
    }
}

/// An end that was taken is bound.
pub fn ends_took(ends: &mut Vec<(u16, EndId)>, op: &Op, msg: Msg)
    requires once { AreNamedOnce (vec_capacity ends.old) ends.old.items }
    requires below { BindsBelow (vec_capacity ends.old) op.now }
    ensures ends { (codes : List Code) (stage : Stage) (rest : List Thing) →
        ends.new.items
        ≡ ends_after_took ends.old.items (thing_at stage (deed_in codes op.now) ∷ rest) msg }
    ensures once { (size : ℕ) → AreNamedOnce size ends.old.items → BindsBelow size op.now →
        AreNamedOnce size ends.new.items }
    ensures room { vec_capacity ends.old ≤ vec_capacity ends.new }
{
    if let Op::TakeEnd { into, .. } = op {
        if let Msg::Sess { sess, side, .. } = msg {
            bind(ends, *into, EndId { sess, side });
        }
    }
}

/// A closed end is no longer bound.
pub fn ends_closed(ends: &mut Vec<(u16, EndId)>, op: &Op)
    ensures ends { (codes : List Code) (stage : Stage) (rest : List Thing) →
        ends.new.items
        ≡ ends_after_closed ends.old.items (thing_at stage (deed_in codes op.now) ∷ rest) }
    ensures once { (size : ℕ) → AreNamedOnce size ends.old.items →
        AreNamedOnce size ends.new.items }
    ensures room { vec_capacity ends.old ≤ vec_capacity ends.new }
{
    if let Op::Close { end } = op {
        unbind(ends, *end);
    }
}

/// The name of the end that a statement opens or accepts; 0 where it does neither.
pub fn name_at(op: &Op) -> u16
    ensures { (codes : List Code) (stage : Stage) (rest : List Thing) →
        result ≡ name_opened (thing_at stage (deed_in codes op.now) ∷ rest) }
{
    match op {
        Op::Request { end, .. } => *end,
        Op::Accept { end, .. } => *end,
        _ => 0,
    }
}

/// An end of a session that was opened or accepted is bound.
pub fn ends_opened(ends: &mut Vec<(u16, EndId)>, op: &Op, end: EndId)
    requires once { AreNamedOnce (vec_capacity ends.old) ends.old.items }
    requires below { BindsBelow (vec_capacity ends.old) op.now }
    ensures ends { (codes : List Code) (stage : Stage) (rest : List Thing) →
        ends.new.items
        ≡ ends_after_opened ends.old.items (thing_at stage (deed_in codes op.now) ∷ rest) end }
    ensures once { (size : ℕ) → AreNamedOnce size ends.old.items → BindsBelow size op.now →
        AreNamedOnce size ends.new.items }
    ensures room { vec_capacity ends.old ≤ vec_capacity ends.new }
{
    match op {
        Op::Request { end: name, .. } => bind(ends, *name, end),
        Op::Accept { end: name, .. } => bind(ends, *name, end),
        _ => {}
    }
}
