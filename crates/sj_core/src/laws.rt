//! Laws of the nodes of core runs: `each_node_agrees_with_its_next_step`.
ghost use Rattle.std.specs.Prelude.{◌≡◌, ℕ, List, Some, None, slice_get};
ghost use Rattle.sj_acceptance.specs.Accepted.{IsAccepted};
ghost use Rattle.sj_core.specs.NodeWorld.{IsReached, nodes_in};
ghost use Rattle.sj_core.specs.Nodes.{IsNodeOf};
ghost use Rattle.sj_core.specs.declared.node_world.NodeWorld.{NodeWorld};
ghost use Rattle.sj_lang.specs.FileAt.{FileAt};
ghost use Rattle.sj_lang.specs.Place.{Place};
ghost use Rattle.sj_node.specs.Node.{node_halt, wants_of};
ghost use Rattle.sj_node.specs.Unfit.{Agrees, misfit_of};
ghost use Rattle.sj_node.specs.declared.node.Node.{Node};
ghost use Rattle.sj_rules.specs.History.{IsCoreRun};
ghost use Rattle.sj_rules.specs.World.{Turn, WorldAt};
ghost use Rattle.sj_semantics.specs.Program.{Program};

/// In a core run of an accepted file, where nothing holds a party's node up, the places of its ends
/// let its next step. Then none of the four causes of unfit applies, either. So it is at each node
/// of a world.
pub fn each_node_agrees_with_its_next_step()
    ensures run { (file : FileAt) (turns : List Turn) (core : WorldAt Place Program) (p : ℕ) (n : Node) →
        IsAccepted file → IsCoreRun file turns core → IsNodeOf file core p n →
        node_halt n ≡ None → Agrees n (wants_of n) }
    ensures fits { (file : FileAt) (turns : List Turn) (core : WorldAt Place Program) (p : ℕ) (n : Node) →
        IsAccepted file → IsCoreRun file turns core → IsNodeOf file core p n →
        node_halt n ≡ None → misfit_of n ≡ None }
    ensures world { (c : NodeWorld) (p : ℕ) (n : Node) → IsReached c →
        slice_get (nodes_in c) p ≡ Some n → node_halt n ≡ None → Agrees n (wants_of n) }
{}
