//! What waits on links, put before the outboxes of the nodes.
ghost use Rattle.std.specs.Prelude.{◌≡◌, ◌≤◌, ◌<◌, IfOk, IfSome, true, length};
ghost use Rattle.sj_lane.specs.Square.{AllJoined, IsSquare};
ghost use Rattle.sj_node.specs.Reading.{TakesOut};
ghost use Rattle.sj_run.specs.Handed.{AreHandedIn, HasTaken, IsHandedIn, LanesStay, WaitsBeside};

use sj_base::NoMemory;
use sj_lane::{Lanes, Links};
use sj_node::Node;
use std::alloc::Global;

// Puts what waits on the link from that party before its node's outbox for the other one. Answers
// whether the links hand it over.
fn hand_link<L: Links>(
    alloc: Global,
    links: &mut L,
    lanes: &mut Vec<Lanes<L::Out, L::In>>,
    node: &mut Node,
    from: u16,
    to: u16,
) -> Result<bool, NoMemory>
    requires square { IsSquare lanes.old.items }
    requires joined { AllJoined L.joined lanes.old.items }
    ensures lanes { LanesStay L.Out.OutLane L.In.InLane L.joined lanes.old.items lanes.new.items }
    ensures telling { IfOk result (λ all. all ≡ true → L.tells links.old ≡ true) }
    ensures taken { IfOk result (λ all. all ≡ true → HasTaken L.Out.pushed L.In.popped lanes.old.items from to node.old node.new) }
    ensures beside { IfOk result (λ all. all ≡ true → WaitsBeside to node.old node.new) }
    ensures same { IfOk result (λ all. all ≡ true → TakesOut node.old node.new) }
    ensures tells { L.tells links.new ≡ L.tells links.old }
    ensures faults { L.faults links.new ≡ L.faults links.old }
{
    let Some(frames) = links.rest(alloc, lanes, from, to)? else {
        return Ok(false);
    };
    node.put_in_front(to, frames)?;
    Ok(true)
}

// Puts what waits on the links from that party before its node's outboxes. Answers the node where
// that is all, and no Give waits then.
fn hand_from<L: Links>(
    alloc: Global,
    links: &mut L,
    lanes: &mut Vec<Lanes<L::Out, L::In>>,
    node: Node,
    from: u16,
    parties: u16,
) -> Result<Option<Node>, NoMemory>
    requires square { IsSquare lanes.old.items }
    requires joined { AllJoined L.joined lanes.old.items }
    requires count { length lanes.old.items ≡ parties }
    ensures lanes { LanesStay L.Out.OutLane L.In.InLane L.joined lanes.old.items lanes.new.items }
    ensures telling { IfOk result (λ o. IfSome o (λ m. 0 < length lanes.old.items → L.tells links.old ≡ true)) }
    ensures handed { IfOk result (λ o. IfSome o (λ m. IsHandedIn L.Out.pushed L.In.popped lanes.old.items from node m)) }
    ensures tells { L.tells links.new ≡ L.tells links.old }
    ensures faults { L.faults links.new ≡ L.faults links.old }
{
    let mut own = node;
    for to in 0..parties {
        if !hand_link(alloc, links, lanes, &mut own, from, to)? {
            return Ok(None);
        }
    }
    if own.gives() {
        return Ok(None);
    }
    Ok(Some(own))
}

/// Puts what waits on the links before the nodes' outboxes, for each party and each other, where
/// that is asked for. Answers the nodes where that was all, and no Give waits then. Nothing of it
/// counts as popped.
pub(crate) fn hand_in<L: Links>(
    alloc: Global,
    asked: bool,
    links: &mut L,
    lanes: &mut Vec<Lanes<L::Out, L::In>>,
    mut nodes: Vec<Node>,
) -> Result<Option<Vec<Node>>, NoMemory>
    requires square { IsSquare lanes.old.items }
    requires joined { AllJoined L.joined lanes.old.items }
    requires few { length lanes.old.items ≤ 65535 }
    requires count { length nodes.items ≡ length lanes.old.items }
    ensures lanes { LanesStay L.Out.OutLane L.In.InLane L.joined lanes.old.items lanes.new.items }
    ensures asked { IfOk result (λ o. IfSome o (λ v. asked ≡ true)) }
    ensures telling { IfOk result (λ o. IfSome o (λ v. L.tells links.old ≡ true)) }
    ensures handed { IfOk result (λ o. IfSome o (λ v. AreHandedIn L.Out.pushed L.In.popped lanes.old.items nodes.items v.items)) }
    ensures tells { L.tells links.new ≡ L.tells links.old }
    ensures faults { L.faults links.new ≡ L.faults links.old }
{
    if !asked || nodes.is_empty() {
        return Ok(None);
    }
    let parties = nodes.len() as u16;
    let mut handed = Vec::new(alloc);
    for from in 0..parties {
        let node = nodes.remove(0);
        let Some(own) = hand_from(alloc, links, lanes, node, from, parties)? else {
            return Ok(None);
        };
        handed.push(own)?;
    }
    Ok(Some(handed))
}
