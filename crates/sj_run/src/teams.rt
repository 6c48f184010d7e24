//! Workers of all parties of a file, which work.
ghost use Rattle.std.specs.Prelude.{◌≡◌, ◌≤◌, Err, IfErr, IfOk, length, vec_len};
ghost use Rattle.sj_acceptance.specs.Accepted.{IsAccepted};
ghost use Rattle.sj_check.specs.Held.{file_in as held};
ghost use Rattle.sj_lane.specs.Square.{AllJoined, IsFresh, IsSquare, NoFault};
ghost use Rattle.sj_lane.specs.Told.{Rose};
ghost use Rattle.sj_lang.specs.FileView.{file_of};
ghost use Rattle.sj_run.specs.Damage.{IsDamaged};
ghost use Rattle.sj_run.specs.Handed.{AreOver};
ghost use Rattle.sj_run.specs.Workers.{AllWorked, AreHired};

use crate::RunRefusal;
use crate::crews::work_off;
use sj_base::NoMemory;
use sj_check::Accepted;
use sj_core::first_nodes;
use sj_lane::{InLane, Lanes, Links, MakeRefusal, OutLane};
use sj_node::Node;
use sj_work::{Gate, Worker};
use std::alloc::Global;
use std::thread::Threads;

// Each node with the lanes of its number.
fn hire<O: OutLane, I: InLane>(
    alloc: Global,
    mut nodes: Vec<Node>,
    mut lanes: Vec<Lanes<O, I>>,
) -> Result<Vec<Worker<O, I>>, NoMemory>
    requires { length nodes.items ≡ length lanes.items }
    ensures { IfOk result (λ ws. AreHired nodes.items lanes.items (length nodes.items) ws.items) }
{
    let mut workers = Vec::new(alloc);
    for _ in 0..nodes.len() {
        let node = nodes.remove(0);
        let own = lanes.remove(0);
        let worker = Worker::new(node, own);
        workers.push(worker)?;
    }
    Ok(workers)
}

// The parties' lanes.
fn lanes_for<L: Links>(
    alloc: Global,
    parties: u16,
    links: &mut L,
) -> Result<Vec<Lanes<L::Out, L::In>>, RunRefusal>
    ensures square { IfOk result (λ v. (vec_len v ≡ parties) × IsSquare v.items) }
    ensures joined { IfOk result (λ v. AllJoined L.joined v.items) }
    ensures fresh { IfOk result (λ v. IsFresh L.Out.pushed L.In.popped L.Out.vain L.In.vain (L.tells links.old) v.items) }
    ensures faultless { IfOk result (λ v. NoFault L.Out.faults L.In.faults v.items) }
    ensures link_fault { result ≡ Err RunRefusal.LinkFault → Rose (L.faults links.old) (L.faults links.new) }
    ensures whole { IfErr result (λ r. IsDamaged r → ⊥) }
    ensures tells { L.tells links.new ≡ L.tells links.old }
    ensures faults { L.faults links.old ≤ L.faults links.new }
{
    match links.make(alloc, parties) {
        Ok(lanes) => Ok(lanes),
        Err(MakeRefusal::Fault) => Err(RunRefusal::LinkFault),
        Err(MakeRefusal::NoMemory) => Err(RunRefusal::NoMemory),
    }
}

/// Each party's worker after its work, on a pool of so many threads, or on a thread of its own.
pub(crate) fn set_to_work<R: Threads + Sync, L: Links, G: Gate>(
    rt: &R,
    alloc: Global,
    accepted: &Accepted,
    threads: Option<u16>,
    looks: u32,
    links: &mut L,
    gate: &G,
) -> Result<Vec<Worker<L::Out, L::In>>, RunRefusal>
    ensures worked { IfOk result (λ ws. AllWorked L.Out.OutLane L.In.InLane L.joined
        (file_of (held accepted.now)) looks (L.tells links.old) ws.items) }
    ensures over { IfOk result (λ ws. AreOver (file_of (held accepted.now)) ws.items) }
    ensures accepted { IfOk result (λ ws. IsAccepted (file_of (held accepted.now))) }
    ensures link_fault { result ≡ Err RunRefusal.LinkFault → Rose (L.faults links.old) (L.faults links.new) }
    ensures whole { IfErr result (λ r. IsDamaged r → ⊥) }
    ensures tells { L.tells links.new ≡ L.tells links.old }
    ensures faults { L.faults links.old ≤ L.faults links.new }
{
    let parties = accepted.file().parties.len() as u16;
    let nodes = first_nodes(alloc, accepted)?;
    let lanes = lanes_for(alloc, parties, links)?;
    let hired = hire(alloc, nodes, lanes)?;
    let workers = work_off(rt, alloc, hired, threads, looks, gate)?;
    Ok(workers)
}
