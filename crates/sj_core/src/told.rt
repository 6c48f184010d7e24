//! How the parties of a world stand that leaves nothing to do.
ghost use Rattle.std.specs.List.{list_any};
ghost use Rattle.std.specs.Prelude.{◌≡◌, [], false, IfOk, map};
ghost use Rattle.sj_core.specs.NodeWorld.{nodes_in};
ghost use Rattle.sj_core.specs.ToldWorld.{IsQuietOf, has_opened, stand_seen};
ghost use Rattle.sj_lang.specs.FileAt.{FileAt};
ghost use Rattle.sj_semantics.specs.Run.{end_of};
ghost use Rattle.sj_semantics.specs.State.{opened_in};
ghost use Rattle.sj_told.specs.Still.{still_by, still_state, worn_by};
ghost use Rattle.sj_told.specs.Told.{AreStands};

use crate::node_world::NodeWorld;
use crate::world::World;
use sj_base::NoMemory;
use sj_machine::MAX_STEPS;
use sj_node::Node;
use sj_semantics::{Limit, State, Want};
use sj_told::Stand;
use std::alloc::Global;

impl World {
    /// Whether a party opened a session. Where none did and nothing is left to do, none was opened
    /// at the end of the file.
    pub fn opens(&self) -> bool
        ensures opened { result ≡ list_any has_opened (nodes_in self.now) }
        ensures none { result ≡ false → (file : FileAt) → IsQuietOf file self.now → opened_in (end_of file) ≡ [] }
    {
        self.node_world.opens()
    }

    /// How each party's node stands, in order. Where nothing is left to do, the party stands so at
    /// the end of the file.
    pub fn stands(&self, alloc: Global) -> Result<Vec<Stand>, NoMemory>
        ensures seen { IfOk result (λ v. v.items ≡ map stand_seen (nodes_in self.now)) }
        ensures stands { IfOk result (λ v. (file : FileAt) → IsQuietOf file self.now → AreStands (end_of file) v.items) }
    {
        self.node_world.stands(alloc)
    }
}

impl NodeWorld {
    ghost use Rattle.sj_core.specs.NodeWorld.{IsReached};

    /// Whether a party opened a session. Where none did and nothing is left to do, none was opened
    /// at the end of the file.
    pub fn opens(&self) -> bool
        requires reached { IsReached self.now }
        ensures opened { result ≡ list_any has_opened (nodes_in self.now) }
        ensures none { result ≡ false → (file : FileAt) → IsQuietOf file self.now → opened_in (end_of file) ≡ [] }
    {
        have_opened(&self.nodes)
    }

    /// How each party's node stands, in order.
    pub fn stands(&self, alloc: Global) -> Result<Vec<Stand>, NoMemory>
        requires reached { IsReached self.now }
        ensures seen { IfOk result (λ v. v.items ≡ map stand_seen (nodes_in self.now)) }
        ensures stands { IfOk result (λ v. (file : FileAt) → IsQuietOf file self.now → AreStands (end_of file) v.items) }
    {
        let stands = stands_of(alloc, &self.nodes)?;
        Ok(stands)
    }
}

fn have_opened(nodes: &[Node]) -> bool
    ensures { result ≡ list_any has_opened nodes.now }
{
    nodes.iter().any(|node| node.requests() != 0)
}

fn stands_of(alloc: Global, nodes: &[Node]) -> Result<Vec<Stand>, NoMemory>
    ensures { IfOk result (λ v. v.items ≡ map stand_seen nodes.now) }
{
    let mut stands = Vec::new(alloc);
    for node in nodes {
        stands.push(stand_of(node))?;
    }
    Ok(stands)
}

/// How the party of a node stands that can't act.
pub fn stand_of(node: &Node) -> Stand
    ensures { result ≡ stand_seen node.now }
{
    let steps = node.steps();
    let state = still_state(steps, node.wants());
    Stand { steps, state }
}

fn still_state(steps: u32, want: Want) -> State
    ensures { result ≡ still_state steps want }
{
    if steps < MAX_STEPS {
        still_by(want)
    } else {
        worn_by(want)
    }
}

// A step that no other party can hinder is never refused.
fn still_by(want: Want) -> State
    ensures { result ≡ still_by want }
{
    match want {
        Want::Ended => State::Ended,
        Want::Delegate { sent, .. } => State::AtLimit(Limit::Hops(sent)),
        Want::Take { end, .. } => State::Waits(end),
        Want::Request { .. } => State::AtLimit(Limit::Requests),
        Want::Accept { from, .. } => State::WaitsOpen(from),
        Want::Local => State::Ready,
        Want::Send { .. } => State::Ready,
        Want::Close { .. } => State::Ready,
    }
}

fn worn_by(want: Want) -> State
    ensures { result ≡ worn_by want }
{
    match want {
        Want::Ended => State::Ended,
        _ => State::AtLimit(Limit::Steps),
    }
}
