//! A core world before any event.
ghost use Rattle.std.specs.Prelude.{◌≡◌, [], IfErr, IfOk, length, map};
ghost use Rattle.sj_check.specs.Held.{file_in as held};
ghost use Rattle.sj_core.specs.Nodes.{AreFirst};
ghost use Rattle.sj_core.specs.Replaying.{IsMisfitFrom};
ghost use Rattle.sj_core.specs.Views.{line_at};
ghost use Rattle.sj_lang.specs.FileView.{file_of};
ghost use Rattle.sj_plain.specs.SharedFile.{without_words};
ghost use Rattle.sj_rules.specs.Start.{core_start};

use crate::ReplayRefusal;
use crate::node_world::NodeWorld;
use crate::world::World;
use sj_base::NoMemory;
use sj_check::Accepted;
use sj_end::Line;
use sj_node::Node;
use sj_plain::SharedFile;
use std::alloc::Global;

/// The nodes of all parties before any event, by the parties' numbers. Frames carry spots from node
/// to node, so all nodes have the file's one table.
pub fn first_nodes(alloc: Global, accepted: &Accepted) -> Result<Vec<Node>, NoMemory>
    ensures { IfOk result (λ nodes. AreFirst (without_words (file_of (held accepted.now))) nodes.items) }
{
    let table = accepted.table();
    let parties = accepted.file().parties.len();
    let mut nodes = Vec::new(alloc);
    for party in 0..parties {
        let own = table.copied()?;
        let node = Node::with_table(alloc, accepted, party as u16, 0, own)?;
        nodes.push(node)?;
    }
    Ok(nodes)
}

impl NodeWorld {
    ghost use Rattle.sj_core.specs.NodeWorld.{IsReached, file_in, history_in, world_in};

    // The parties of the file before any event, with nothing in their lanes. It has the file in
    // common with all who keep it.
    fn begin(alloc: Global, accepted: &Accepted) -> Result<NodeWorld, NoMemory>
        ensures reached { IfOk result (λ c. IsReached c) }
        ensures file { IfOk result (λ c. file_in c ≡ without_words (file_of (held accepted.now))) }
        ensures history { IfOk result (λ c. history_in c ≡ []) }
        ensures world { IfOk result (λ c. world_in c ≡ core_start (file_of (held accepted.now))) }
    {
        let nodes = first_nodes(alloc, accepted)?;
        let kept = SharedFile::of(accepted)?;
        let history = Vec::new(alloc);
        Ok(NodeWorld {
            alloc,
            kept,
            nodes,
            history,
        })
    }
}

impl NodeWorld {
    ghost use Rattle.sj_core.specs.NodeWorld.{IsReached, file_in, history_in, nodes_in};
    ghost use Rattle.sj_core.specs.Nodes.{AreSeated, world_by};
    ghost use Rattle.sj_rules.specs.History.{IsHistory};
    ghost use Rattle.std.specs.Prelude.{max};

    // These nodes, and that history.
    fn assembled(
        alloc: Global,
        accepted: &Accepted,
        nodes: Vec<Node>,
        history: Vec<Line>,
    ) -> Result<NodeWorld, NoMemory>
        requires seats { AreSeated (without_words (file_of (held accepted.now))) nodes.items }
        requires run { IsHistory max (without_words (file_of (held accepted.now))) (map line_at history.items)
            (world_by (without_words (file_of (held accepted.now))) nodes.items) }
        ensures reached { IfOk result (λ c. IsReached c) }
        ensures file { IfOk result (λ c. file_in c ≡ without_words (file_of (held accepted.now))) }
        ensures history { IfOk result (λ c. history_in c ≡ map line_at history.items) }
        ensures nodes { IfOk result (λ c. nodes_in c ≡ nodes.items) }
    {
        let kept = SharedFile::of(accepted)?;
        Ok(NodeWorld {
            alloc,
            kept,
            nodes,
            history,
        })
    }
}

impl World {
    ghost use Rattle.sj_core.specs.Nodes.{AreSeated, world_by};
    ghost use Rattle.sj_core.specs.World.{history_of, kept_file as kept_of, party_count, world_at};
    ghost use Rattle.sj_rules.specs.History.{IsHistory};
    ghost use Rattle.std.specs.Prelude.{max};

    /// The parties of the file before any event.
    pub fn start(alloc: Global, accepted: &Accepted) -> Result<World, NoMemory>
        // The file's start.
        ensures kept { IfOk result (λ w. kept_of w ≡ without_words (file_of (held accepted.now))) }
        ensures history { IfOk result (λ w. history_of w ≡ []) }
        ensures world { IfOk result (λ w. world_at w ≡ core_start (file_of (held accepted.now))) }

        // What is true of every world.
        ensures run { IfOk result (λ w. IsHistory max (kept_of w) (history_of w) (world_at w)) }
        ensures parties { IfOk result (λ w. party_count w ≡ length (kept_of w).parties) }
    {
        let node_world = NodeWorld::begin(alloc, accepted)?;
        Ok(World { node_world })
    }

    /// The world of these nodes, to which that history leads. Nothing is done again.
    pub fn assembled(
        alloc: Global,
        accepted: &Accepted,
        nodes: Vec<Node>,
        history: Vec<Line>,
    ) -> Result<World, NoMemory>
        requires seats { AreSeated (without_words (file_of (held accepted.now))) nodes.items }
        requires run { IsHistory max (without_words (file_of (held accepted.now))) (map line_at history.items)
            (world_by (without_words (file_of (held accepted.now))) nodes.items) }
        ensures kept { IfOk result (λ w. kept_of w ≡ without_words (file_of (held accepted.now))) }
        ensures history { IfOk result (λ w. history_of w ≡ map line_at history.items) }
        ensures world { IfOk result (λ w. world_at w ≡ world_by (without_words (file_of (held accepted.now))) nodes.items) }

        // What is true of every world.
        ensures run { IfOk result (λ w. IsHistory max (kept_of w) (history_of w) (world_at w)) }
        ensures parties { IfOk result (λ w. party_count w ≡ length (kept_of w).parties) }
    {
        let node_world = NodeWorld::assembled(alloc, accepted, nodes, history)?;
        Ok(World { node_world })
    }

    /// The world to which these lines lead from the file's start on, if each is the one that is due
    /// there. They become its history, so that no line is copied.
    pub fn replayed(
        alloc: Global,
        accepted: &Accepted,
        lines: Vec<Line>,
    ) -> Result<World, ReplayRefusal>
        // The lines lead to it, each the one that is due.
        ensures ok { IfOk result (λ w. IsHistory max (file_of (held accepted.now)) (map line_at lines.items) (world_at w)) }
        ensures kept { IfOk result (λ w. kept_of w ≡ without_words (file_of (held accepted.now))) }
        ensures history { IfOk result (λ w. history_of w ≡ map line_at lines.items) }

        // What is true of every world.
        ensures run { IfOk result (λ w. IsHistory max (kept_of w) (history_of w) (world_at w)) }
        ensures parties { IfOk result (λ w. party_count w ≡ length (kept_of w).parties) }

        // The first line that isn't the one that is due.
        ensures misfit { IfErr result (IsMisfitFrom (file_of (held accepted.now)) (map line_at lines.items)) }
    {
        let node_world = NodeWorld::begin(alloc, accepted)?;
        match node_world.replayed(lines) {
            Ok(node_world) => Ok(World { node_world }),
            Err(refusal) => Err(refusal),
        }
    }
}
