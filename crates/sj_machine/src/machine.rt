//! A party as it runs.
ghost use Rattle.std.specs.Prelude.{◌≡◌, ◌<◌, ◌^◌, IfOk, Some, length, option_map, slice_get, true, unwrap_or};
ghost use Rattle.sj_acceptance.specs.Accepted.{IsAccepted};
ghost use Rattle.sj_lang.specs.FileView.{file_of};
ghost use Rattle.sj_machine.specs.Names.{NamesDiffer};
ghost use Rattle.sj_machine.specs.Opens.{is_opening};
ghost use Rattle.sj_machine.specs.Sound.{first_program, program_at, last_step};
ghost use Rattle.sj_semantics.specs.World.{start_of};
ghost use Rattle.sj_semantics.specs.declared.Awaits.{Awaits};
ghost use Rattle.sj_semantics.specs.declared.Want.TheVariants.{Ended, Take};
ghost use Rattle.sj_semantics.specs.Steps.{closed_of, local_of, name_opened, opened_of, sent_of, took_of};
ghost use Rattle.sj_semantics.specs.Wants.{want_of};
ghost use Rattle.sj_semantics.specs.Fitting.{fits};

use crate::arena::CodeNode;
use crate::bindings::name_at;
use crate::builders::add_block;
use crate::needs::{fits_at, want_at};
use crate::stack::Stack;
use crate::starts::{connected_ends, names_above, names_of, unknown, with_room};
use crate::steps::{closed, local, opened, sent, took};
use sj_base::{EndId, Msg, NoMemory};
use sj_lang::{File, Stmt};
use sj_semantics::{Value, Want};
use std::alloc::Global;
use std::marker::Model;

/// A party's program, where it is in it, and what it knows.
#[derive(Drop)]
pub struct Machine {
    nodes: Vec<CodeNode>,
    stack: Stack,
    vars: Vec<Option<Value>>,
    ends: Vec<(u16, EndId)>,
    steps: u32,
    peers: Vec<u16>,
}

impl Model for Machine {
    ghost use Rattle.std.specs.Prelude.{ℕ, List, Option, length, vec_capacity};
    ghost use Rattle.sj_base.specs.declared.EndId.{EndId};
    ghost use Rattle.sj_semantics.specs.declared.Value.{Value as Known};
    ghost use Rattle.sj_machine.specs.declared.arena.CodeNode.{CodeNode};
    ghost use Rattle.sj_machine.specs.declared.stack.StackFrame.{StackFrame};
    ghost use Rattle.sj_machine.specs.Sound.{IsSound};
    ghost use Rattle.sj_lang.specs.contracts.party.Expr as e;
    ghost use Rattle.std.specs.Coded.{codes};

    ghost Value = { List CodeNode × (List StackFrame × ℕ) × List (Option Known) × List (ℕ × EndId) × ℕ
        × List ℕ };

    ghost coded = { Prim.hlevel (codes, e.the_row.coded) };

    ghost view = { λ m. (m.nodes.items, m.stack, m.vars.items, m.ends.items, m.steps, m.peers.items) };

    ghost invariant = { λ m. IsSound m.nodes.items m.stack.0 m.stack.1
        (length m.vars.items) m.ends.items (vec_capacity m.ends) m.peers.items };
}

impl Machine {
    ghost use Rattle.sj_base.specs.declared.EndId.{EndId};

    /// The party of that number at the start of the file. Takes all the memory that its steps need.
    pub fn start(alloc: Global, file: &File, party: u16) -> Result<Machine, NoMemory>
        requires accepted { IsAccepted (file_of file.now) }
        requires party { party < length (file_of file.now).parties }
        ensures { IfOk result (λ m.
            slice_get (start_of (file_of file.now)).parties party ≡ Some (program_at m)) }
    {
        let connected = connected_ends(alloc, file, party)?;
        let peers = names_of(alloc, &file.parties)?;
        let machine = Machine::over(alloc, &file.parties[party as usize].body, &connected, peers)?;
        Ok(machine)
    }

    /// A party with these statements to do and these ends among parties of these names, and no
    /// variable.
    pub(crate) fn over(
        alloc: Global,
        body: &[Stmt],
        connected: &[(u16, EndId)],
        peers: Vec<u16>,
    ) -> Result<Machine, NoMemory>
        requires differ { NamesDiffer connected.now }
        requires few { length peers.items < 2 ^ 16 }
        ensures { IfOk result (λ m.
            program_at m ≡ first_program body.now connected.now peers.items) }
    {
        let mut nodes = Vec::new(alloc);
        let first = add_block(alloc, &mut nodes, body)?;
        let names = names_above(&nodes, connected);
        let ends = with_room(alloc, connected, names)?;
        let vars = unknown(alloc, names)?;
        let mut stack = Stack::new(alloc, nodes.len() + 1)?;
        stack.enter(first);
        Ok(Machine {
            nodes,
            stack,
            vars,
            ends,
            steps: 0,
            peers,
        })
    }

    /// The next step of the program. A program that names what isn't there does nothing more.
    pub fn wants(&self) -> Want
        ensures { result ≡ unwrap_or (want_of (program_at self.now)) Ended }
    {
        match self.stack.top() {
            Some(frame) => want_at(
                &self.peers,
                &self.vars,
                &self.ends,
                frame.stage,
                &self.nodes[frame.at].op,
            ),
            None => Want::Ended,
        }
    }

    /// Whether the next step takes, and can take this message: false where `wants` isn't a take.
    pub fn fits(&self, msg: &Msg) -> bool
        ensures fits { result ≡ fits (program_at self.now) msg.now }
        ensures takes { result ≡ true →
            (e : EndId) × ((a : Awaits) × (want_of (program_at self.now) ≡ Some (Take e a))) }
    {
        let Want::Take { .. } = self.wants() else {
            return false;
        };
        match self.stack.top() {
            Some(frame) => fits_at(frame.stage, &self.nodes[frame.at].op, msg),
            None => false,
        }
    }

    /// Does the next step, one without a message.
    pub fn local(&mut self)
        requires { (program_at self.old).steps < last_step }
        ensures { program_at self.new ≡ local_of (program_at self.old) }
    {
        local(&self.nodes, &mut self.stack, &mut self.vars);
        self.steps += 1;
    }

    /// Does the next step, one that sends a message or delegates an end.
    pub fn sent(&mut self)
        requires { (program_at self.old).steps < last_step }
        ensures { program_at self.new ≡ sent_of (program_at self.old) }
    {
        sent(&self.nodes, &mut self.stack, &self.vars, &mut self.ends);
        self.steps += 1;
    }

    /// Does the next step, one that takes the message.
    pub fn took(&mut self, msg: Msg)
        requires { (program_at self.old).steps < last_step }
        ensures { program_at self.new ≡ took_of (program_at self.old) msg }
    {
        took(
            &self.nodes,
            &mut self.stack,
            &mut self.vars,
            &mut self.ends,
            msg,
        );
        self.steps += 1;
    }

    /// Does the next step, one that closes an end.
    pub fn closed(&mut self)
        requires { (program_at self.old).steps < last_step }
        ensures { program_at self.new ≡ closed_of (program_at self.old) }
    {
        closed(&self.nodes, &mut self.stack, &mut self.ends);
        self.steps += 1;
    }

    /// Does the next step, one that opens a session or accepts one, and binds that end.
    pub fn opened(&mut self, end: EndId)
        requires steps { (program_at self.old).steps < last_step }
        requires opens { is_opening (unwrap_or (want_of (program_at self.old)) Ended) ≡ true }
        ensures { program_at self.new ≡ opened_of (program_at self.old) end }
    {
        let names = self.vars.len();
        opened(&self.nodes, &mut self.stack, names, &mut self.ends, end);
        self.steps += 1;
    }

    /// The name under which the next step binds an end, where it opens a session or accepts one;
    /// else 0.
    pub fn name_opened(&self) -> u16
        ensures { result ≡ name_opened (program_at self.now).todo }
    {
        match self.stack.top() {
            Some(frame) => name_at(&self.nodes[frame.at].op),
            None => 0,
        }
    }

    /// The end that the first bound name stands for.
    pub fn first_end(&self) -> Option<EndId>
        ensures { result ≡ option_map (λ b. b.1) (slice_get (program_at self.now).ends 0) }
    {
        match self.ends.first() {
            Some(&(_, end)) => Some(end),
            None => None,
        }
    }

    /// How many steps it has done.
    pub fn steps(&self) -> u32
        ensures { result ≡ (program_at self.now).steps }
    {
        self.steps
    }
}
