//! Nodes that stand for equal places.
ghost use Rattle.std.specs.Prelude.{◌≡◌, ◌↔◌, IsTrue};
ghost use Rattle.sj_lang.specs.MeetTests.{stands_for};
ghost use Rattle.sj_lang.specs.View.{place_of};
ghost use Rattle.sj_table.specs.Table.{IsTable, at_node, places_of};

use crate::leads::{Row, is_done_node, split_node};
use sj_lang::{Item, meet_item, same_item};

/// Whether two nodes stand for equal places. Their items are compared up to where both have come to
/// one node.
pub(crate) fn same_nodes(rows: &[Row], one: u32, other: u32) -> bool
    requires { IsTable rows.now }
    ensures { IsTrue result ↔ (at_node (places_of rows.now) one ≡ at_node (places_of rows.now) other) }
{
    let mut a = one;
    let mut b = other;
    while a != b {
        match (split_node(rows, a), split_node(rows, b)) {
            (Some((item, next)), Some((same, follows))) => {
                if !same_item(item, same) {
                    return false;
                }
                a = next;
                b = follows;
            }
            (None, None) => return true,
            _ => return false,
        }
    }
    true
}

/// Whether the node stands for the place with these items.
pub(crate) fn is_node_of(rows: &[Row], node: u32, items: &[Item]) -> bool
    requires { IsTable rows.now }
    ensures { IsTrue result ↔ (at_node (places_of rows.now) node ≡ place_of items.now) }
{
    let mut at = node;
    for item in items {
        let Some((first, next)) = split_node(rows, at) else {
            return false;
        };
        if !same_item(first, item) {
            return false;
        }
        at = next;
    }
    is_done_node(rows, at)
}

/// Whether an end at the node can stand where one at the place with these items is wanted.
pub(crate) fn node_stands_for(rows: &[Row], node: u32, items: &[Item]) -> bool
    requires { IsTable rows.now }
    ensures { result ≡ stands_for (at_node (places_of rows.now) node) (place_of items.now) }
{
    let mut at = node;
    for item in items {
        let Some((first, next)) = split_node(rows, at) else {
            return false;
        };
        if !meet_item(first, true, item) {
            return false;
        }
        at = next;
    }
    is_done_node(rows, at)
}
