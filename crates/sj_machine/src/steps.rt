//! Steps over a program's nodes, its position in them, and what it knows.
ghost use Rattle.std.specs.Prelude.{◌≡◌, ◌<◌, ◌≤◌, ℕ, length, vec_capacity};
ghost use Rattle.sj_machine.specs.Arena.{IsBackward};
ghost use Rattle.sj_machine.specs.Frames.{Fits, todo_in};
ghost use Rattle.sj_machine.specs.Names.{AllBindBelow, AreNamedOnce};
ghost use Rattle.sj_machine.specs.Opens.{ends_after_opened};
ghost use Rattle.sj_machine.specs.Table.{vars_in};
ghost use Rattle.sj_semantics.specs.Steps.{ends_after_closed, ends_after_sent, ends_after_took, rest_of, todo_after_local};
ghost use Rattle.sj_semantics.specs.Steps.{todo_after_sent, todo_after_took, vars_after_local, vars_after_took};

use crate::arena::CodeNode;
use crate::bindings::{ends_closed, ends_opened, ends_sent, ends_took, vars_local, vars_took};
use crate::leads::{after_local, after_sent, after_took};
use crate::stack::{After, Stack};
use sj_base::{EndId, Msg};
use sj_semantics::Value;

/// A step without a message.
pub fn local(nodes: &Vec<CodeNode>, stack: &mut Stack, vars: &mut [Option<Value>])
    requires back { IsBackward 0 nodes.now.items }
    requires fits { Fits (length nodes.now.items) 0 stack.old.0 }
    requires room { length nodes.now.items < stack.old.1 }
    requires named { AllBindBelow (length vars.old) nodes.now.items }
    ensures todo { todo_in nodes.now.items stack.new.0
        ≡ todo_after_local (vars_in vars.old) (todo_in nodes.now.items stack.old.0) }
    ensures vars { vars_in vars.new
        ≡ vars_after_local (vars_in vars.old) (todo_in nodes.now.items stack.old.0) }
    ensures fits { Fits (length nodes.now.items) 0 stack.new.0 }
    ensures room { stack.old.1 ≤ stack.new.1 }
{
    if let Some(frame) = stack.pop() {
        let node = &nodes[frame.at];
        let after = after_local(vars, &node.op);
        stack.leave(frame, node.next, after);
        vars_local(vars, &node.op);
    }
}

/// A step that sends a message or delegates an end.
pub fn sent(
    nodes: &Vec<CodeNode>,
    stack: &mut Stack,
    vars: &[Option<Value>],
    ends: &mut Vec<(u16, EndId)>,
)
    requires back { IsBackward 0 nodes.now.items }
    requires fits { Fits (length nodes.now.items) 0 stack.old.0 }
    requires room { length nodes.now.items < stack.old.1 }
    ensures todo { todo_in nodes.now.items stack.new.0
        ≡ todo_after_sent (vars_in vars.now) (todo_in nodes.now.items stack.old.0) }
    ensures ends { ends.new.items
        ≡ ends_after_sent ends.old.items (todo_in nodes.now.items stack.old.0) }
    ensures fits { Fits (length nodes.now.items) 0 stack.new.0 }
    ensures room { stack.old.1 ≤ stack.new.1 }
    ensures once { (size : ℕ) → AreNamedOnce size ends.old.items →
        AreNamedOnce size ends.new.items }
    ensures ends_room { vec_capacity ends.old ≤ vec_capacity ends.new }
{
    if let Some(frame) = stack.pop() {
        let node = &nodes[frame.at];
        let after = after_sent(vars, frame.stage, &node.op);
        stack.leave(frame, node.next, after);
        ends_sent(ends, &node.op);
    }
}

/// A step that takes a message.
pub fn took(
    nodes: &Vec<CodeNode>,
    stack: &mut Stack,
    vars: &mut [Option<Value>],
    ends: &mut Vec<(u16, EndId)>,
    msg: Msg,
)
    requires back { IsBackward 0 nodes.now.items }
    requires fits { Fits (length nodes.now.items) 0 stack.old.0 }
    requires room { length nodes.now.items < stack.old.1 }
    requires named { AllBindBelow (length vars.old) nodes.now.items }
    requires once { AreNamedOnce (length vars.old) ends.old.items }
    requires ends_room { length vars.old ≤ vec_capacity ends.old }
    ensures todo { todo_in nodes.now.items stack.new.0
        ≡ todo_after_took (todo_in nodes.now.items stack.old.0) msg }
    ensures vars { vars_in vars.new
        ≡ vars_after_took (vars_in vars.old) (todo_in nodes.now.items stack.old.0) msg }
    ensures ends { ends.new.items
        ≡ ends_after_took ends.old.items (todo_in nodes.now.items stack.old.0) msg }
    ensures fits { Fits (length nodes.now.items) 0 stack.new.0 }
    ensures room { stack.old.1 ≤ stack.new.1 }
    ensures once { AreNamedOnce (length vars.old) ends.new.items }
    ensures ends_room { vec_capacity ends.old ≤ vec_capacity ends.new }
{
    if let Some(frame) = stack.pop() {
        let node = &nodes[frame.at];
        let after = after_took(frame.stage, &node.op, msg);
        stack.leave(frame, node.next, after);
        ends_took(ends, &node.op, msg);
        vars_took(vars, &node.op, msg);
    }
}

/// A step that closes an end.
pub fn closed(nodes: &Vec<CodeNode>, stack: &mut Stack, ends: &mut Vec<(u16, EndId)>)
    requires back { IsBackward 0 nodes.now.items }
    requires fits { Fits (length nodes.now.items) 0 stack.old.0 }
    requires room { length nodes.now.items < stack.old.1 }
    ensures todo { todo_in nodes.now.items stack.new.0
        ≡ rest_of (todo_in nodes.now.items stack.old.0) }
    ensures ends { ends.new.items
        ≡ ends_after_closed ends.old.items (todo_in nodes.now.items stack.old.0) }
    ensures fits { Fits (length nodes.now.items) 0 stack.new.0 }
    ensures room { stack.old.1 ≤ stack.new.1 }
    ensures once { (size : ℕ) → AreNamedOnce size ends.old.items →
        AreNamedOnce size ends.new.items }
    ensures ends_room { vec_capacity ends.old ≤ vec_capacity ends.new }
{
    if let Some(frame) = stack.pop() {
        let node = &nodes[frame.at];
        stack.leave(frame, node.next, After::Past(None));
        ends_closed(ends, &node.op);
    }
}

/// A step that opens or accepts a session.
pub fn opened(
    nodes: &Vec<CodeNode>,
    stack: &mut Stack,
    names: usize,
    ends: &mut Vec<(u16, EndId)>,
    end: EndId,
)
    requires back { IsBackward 0 nodes.now.items }
    requires fits { Fits (length nodes.now.items) 0 stack.old.0 }
    requires room { length nodes.now.items < stack.old.1 }
    requires named { AllBindBelow names nodes.now.items }
    requires once { AreNamedOnce names ends.old.items }
    requires ends_room { names ≤ vec_capacity ends.old }
    ensures todo { todo_in nodes.now.items stack.new.0
        ≡ rest_of (todo_in nodes.now.items stack.old.0) }
    ensures ends { ends.new.items
        ≡ ends_after_opened ends.old.items (todo_in nodes.now.items stack.old.0) end }
    ensures fits { Fits (length nodes.now.items) 0 stack.new.0 }
    ensures room { stack.old.1 ≤ stack.new.1 }
    ensures once { AreNamedOnce names ends.new.items }
    ensures ends_room { vec_capacity ends.old ≤ vec_capacity ends.new }
{
    if let Some(frame) = stack.pop() {
        let node = &nodes[frame.at];
        stack.leave(frame, node.next, After::Past(None));
        ends_opened(ends, &node.op, end);
    }
}
