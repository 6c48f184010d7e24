//! Spots, and the table in which they stand for places.
ghost use Rattle.std.specs.Prelude.{◌≡◌, ◌+◌, ◌<◌, ℕ, length, map, option_map, IsTrue, ◌↔◌, IfOk, IfSome, MatchOption};
ghost use Rattle.sj_lang.specs.After.{after_place};
ghost use Rattle.sj_lang.specs.FileAt.{body_named, named};
ghost use Rattle.sj_lang.specs.FileView.{protocol_of};
ghost use Rattle.sj_lang.specs.MeetTests.{stands_for};
ghost use Rattle.sj_lang.specs.Place.{done};
ghost use Rattle.sj_lang.specs.View.{followed};
ghost use Rattle.sj_lang.specs.ItemCount.{is_done};
ghost use Rattle.sj_table.specs.Nodes.{nodes_of, limit_of_nodes};
ghost use Rattle.sj_table.specs.Spots.{HasSpot, place_in, start_in};
ghost use Rattle.sj_table.specs.Table.{at_node};
ghost use Rattle.sj_table.specs.declared.table.Table.{Table};

use crate::builders::{add_place, items_at};
use crate::comparisons::{is_node_of, node_stands_for, same_nodes};
use crate::leads::{Row, after_node, is_done_node, split_node};
use sj_base::{Msg, NoMemory};
use sj_lang::{Item, Proto, ProtocolDef, Way};
use std::alloc::Global;
use std::marker::Model;
use std::sync::Arc;

/// A place, as the number of a node of a table.
#[derive(Clone, Copy, Debug, PartialEq, Eq)]
pub struct Spot {
    pub node: u32,
}

/// The nodes of a table after node 0, and where each protocol starts.
#[derive(Drop)]
pub(crate) struct Nodes {
    pub(crate) rows: Vec<Row>,
    pub(crate) starts: Vec<(u16, Spot)>,
}

/// The places of the protocols of a file. Node 0 is the empty place. Each other node is one item
/// and the node that follows it. The nodes are shared by all copies of the table, in any threads.
#[derive(Drop)]
pub struct Table {
    nodes: Arc<Nodes>,
}

impl Model for Table {
    ghost use Rattle.std.specs.Prelude.{ℕ, List};
    ghost use Rattle.std.specs.Coded.{coded×, coded_list, coded_ℕ};
    ghost use Rattle.sj_lang.specs.Place.{Place};
    ghost use Rattle.sj_lang.specs.PlaceCode.{coded_place};
    ghost use Rattle.sj_table.specs.declared.table.Spot.{Spot};
    ghost use Rattle.sj_table.specs.contracts.table.Spot as s;

    ghost Value = { List Place × List (ℕ × Spot) };

    ghost coded = { coded× (coded_list coded_place) (coded_list (coded× coded_ℕ s.the_row.coded)) };

    ghost use Rattle.std.specs.Arc.{arc_value};
    ghost use Rattle.sj_table.specs.Table.{IsWhole, places_of};

    ghost view = { λ t. (places_of (arc_value t.nodes).rows.items, (arc_value t.nodes).starts.items) };

    ghost invariant = { λ t. IsWhole (arc_value t.nodes).rows.items (arc_value t.nodes).starts.items };
}

impl Table {
    /// The table of these protocols.
    pub fn compile(alloc: Global, defs: &[ProtocolDef]) -> Result<Table, NoMemory>
        // With the items inside carried kinds there may be more.
        requires few { nodes_of (map protocol_of defs.now) < limit_of_nodes }

        // A protocol starts at its body.
        ensures start { IfOk result (λ t. (p : ℕ) → start_in t p ≡ body_named (map protocol_of defs.now) p) }

        // There is one node for each item, and node 0.
        ensures nodes { IfOk result (λ t. length t.0 ≡ nodes_of (map protocol_of defs.now) + 1) }
    {
        let mut rows = Vec::new(alloc);
        let mut starts = Vec::new(alloc);
        for def in defs {
            let node = add_place(alloc, &mut rows, &def.body, 0)?;
            starts.push((def.name, Spot { node }))?;
        }
        let nodes = Arc::new(alloc, Nodes { rows, starts })?;
        Ok(Table { nodes })
    }

    /// The same table, which has its nodes in common with this one. It is refused where there
    /// are 2^63 - 1 such already.
    pub fn copied(&self) -> Result<Table, NoMemory>
        ensures { IfOk result (λ t. t ≡ self.now) }
    {
        let nodes = Arc::try_clone(&self.nodes)?;
        Ok(Table { nodes })
    }

    /// The spot of the body of the protocol of that name, and node 0 where there is none.
    pub fn start(&self, protocol: u16) -> Spot
        ensures place { place_in self.now result ≡ start_in self.now protocol }
        ensures there { HasSpot self.now result }
    {
        match spot_named(&self.nodes.starts, protocol) {
            Some(spot) => spot,
            None => Spot { node: 0 },
        }
    }

    /// Whether the node is in the table.
    pub fn has(&self, spot: Spot) -> bool
        ensures { IsTrue result ↔ HasSpot self.now spot }
    {
        spot.node as usize <= self.nodes.rows.len()
    }

    /// The spot of the empty place.
    pub fn done(&self) -> Spot
        ensures place { place_in self.now result ≡ done }
        ensures there { HasSpot self.now result }
    {
        let _ = &self.nodes.rows;
        Spot { node: 0 }
    }

    /// Whether the spot stands for the empty place.
    pub fn is_done(&self, spot: Spot) -> bool
        ensures done { result ≡ is_done (place_in self.now spot) }
        // Only node 0 stands for the empty place.
        ensures only { IsTrue result → HasSpot self.now spot → spot.node ≡ 0 }
    {
        is_done_node(&self.nodes.rows, spot.node)
    }

    /// The spot of the place after a message. A session message counts as of any session kind. A
    /// spot that isn't in the table stands for the empty place.
    pub fn after(&self, spot: Spot, way: Way, msg: &Msg) -> Option<Spot>
        ensures place { option_map (place_in self.now) result
            ≡ after_place (place_in self.now spot) way msg.now }
        ensures there { IfSome result (HasSpot self.now) }
    {
        let node = after_node(&self.nodes.rows, spot.node, way, msg);
        spot_at(node)
    }

    /// The item that stands first, and the spot of what follows it; none where nothing is ahead.
    pub fn split(&self, spot: Spot) -> Option<(&Item, Spot)>
        ensures item { let here = place_in self.now spot in
            MatchOption result (here ≡ done) (λ p. here ≡ followed p.0.now (place_in self.now p.1)) }
        ensures there { IfSome result (λ p. HasSpot self.now p.1) }
    {
        let (item, node) = split_node(&self.nodes.rows, spot.node)?;
        Some((item, Spot { node }))
    }

    /// Whether two spots stand for equal places. Their items are compared up to where
    /// both have come to one node.
    pub fn is_same(&self, one: Spot, other: Spot) -> bool
        ensures { IsTrue result ↔ (place_in self.now one ≡ place_in self.now other) }
    {
        same_nodes(&self.nodes.rows, one.node, other.node)
    }

    /// Whether the spot's place is this one.
    pub fn is_at(&self, spot: Spot, place: &Proto) -> bool
        ensures { IsTrue result ↔ (place_in self.now spot ≡ place.now) }
    {
        is_node_of(&self.nodes.rows, spot.node, &place.items)
    }

    /// Whether an end at the spot can stand where one at this place is wanted.
    pub fn stands_for(&self, spot: Spot, wanted: &Proto) -> bool
        ensures { result ≡ stands_for (place_in self.now spot) wanted.now }
    {
        node_stands_for(&self.nodes.rows, spot.node, &wanted.items)
    }

    /// The place for which the spot stands.
    pub fn place(&self, alloc: Global, spot: Spot) -> Result<Proto, NoMemory>
        ensures { IfOk result (λ p. p ≡ place_in self.now spot) }
    {
        let items = items_at(alloc, &self.nodes.rows, spot.node)?;
        Ok(Proto { items })
    }
}

// The spot under the name.
fn spot_named(starts: &[(u16, Spot)], name: u16) -> Option<Spot>
    ensures { result ≡ named starts.now name }
{
    for entry in starts {
        if entry.0 == name {
            return Some(entry.1);
        }
    }
    None
}

fn spot_at(node: Option<u32>) -> Option<Spot>
    ensures place { (t : Table) → option_map (place_in t) result ≡ option_map (at_node t.0) node }
    ensures there { (t : Table) → IfSome node (λ n. n < length t.0) → IfSome result (HasSpot t) }
{
    match node {
        Some(node) => Some(Spot { node }),
        None => None,
    }
}
