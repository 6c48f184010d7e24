//! Entries of a party's log, done again at its node.
ghost use Rattle.std.specs.Prelude.{◌≡◌, ◌<◌, IfErr, IsFalse, IsTrue, OnErr, OnOk};
ghost use Rattle.sj_end.specs.Views.{frame_at};
ghost use Rattle.sj_engine.specs.Redone.{IsLast, IsNoAct, IsNoDelivery, IsOther, Redone};
ghost use Rattle.sj_node.specs.Node.{clock_of};
ghost use Rattle.sj_node.specs.Reading.{table_of};
ghost use Rattle.sj_rules.specs.Limits.{clock_end};
ghost use Rattle.sj_rules.specs.Mapped.{frame_with};
ghost use Rattle.sj_rules.specs.NodeRun.{Acted, Came};
ghost use Rattle.sj_table.specs.Spots.{place_in};

use crate::RedoRefusal;
use sj_core::is_the_line;
use sj_end::{Entry, Frame, Line};
use sj_node::{DeliverRefusal, Halt, Node};

/// Whether the entry is the last that the node noted.
fn is_last(node: &Node, entry: &Entry) -> bool
    ensures last { IsTrue result → IsLast node.now entry.now }
    ensures other { IsFalse result → IsOther node.now entry.now }
{
    let log = node.log();
    if log.len() == 0 {
        return false;
    }
    let party = node.party();
    let made = Some(Line {
        party,
        entry: log[log.len() - 1],
    });
    is_the_line(
        &made,
        &Line {
            party,
            entry: *entry,
        },
    )
}

/// A misfit where the entry isn't the last that the node noted.
fn last(node: &Node, entry: &Entry) -> Result<(), RedoRefusal>
    ensures last { OnOk result (IsLast node.now entry.now) }
    ensures other { OnErr result (IsOther node.now entry.now) }
{
    if is_last(node, entry) {
        Ok(())
    } else {
        Err(RedoRefusal::Misfit)
    }
}

/// Does again the act that the entry notes. After a refusal the node is of no use: it may have done
/// something else.
pub fn redo_act(node: &mut Node, entry: &Entry) -> Result<(), RedoRefusal>
    requires { clock_of node.old < clock_end }
    ensures redone { OnOk result (Redone node.old node.new Acted entry.now) }
    ensures misfit { IfErr result (λ e. e ≡ RedoRefusal.Misfit → IsNoAct node.old entry.now) }
{
    match node.act() {
        Ok(()) => last(node, entry),
        Err(Halt::NoMemory) => Err(RedoRefusal::NoMemory),
        Err(_) => Err(RedoRefusal::Misfit),
    }
}

/// Delivers again the frame that the entry notes. After a refusal the node is of no use: it may have
/// done something else.
pub fn redo_delivery(
    node: &mut Node,
    from: u16,
    frame: Frame,
    entry: &Entry,
) -> Result<(), RedoRefusal>
    requires { clock_of node.old < clock_end }
    ensures redone { OnOk result (Redone node.old node.new
        (Came from (frame_with (place_in (table_of node.old)) (frame_at frame))) entry.now) }
    ensures misfit { IfErr result (λ e. e ≡ RedoRefusal.Misfit
        → IsNoDelivery node.old from (frame_at frame) entry.now) }
{
    match node.deliver(from, frame) {
        Ok(()) => last(node, entry),
        Err((_, DeliverRefusal::NoMemory)) => Err(RedoRefusal::NoMemory),
        Err((_, DeliverRefusal::Unfit)) => Err(RedoRefusal::Misfit),
    }
}
