//! Nodes are put after others: those of an item after those of the items that follow it.
#![tactic(auto, using(crate::proofs::BuildLemmas::builds))]

ghost use Rattle.std.specs.Prelude.{◌≡◌, ◌+◌, ◌<◌, ◌≤◌, ◌++◌, ◌∷◌, [], ℕ, length, IfOk, OnOk};
ghost use Rattle.sj_lang.specs.Place.{done};
ghost use Rattle.sj_lang.specs.View.{followed, place_of};
ghost use Rattle.sj_table.specs.Nodes.{AreBack, Grown, IsLoop, Turned, arm_nodes, node_count, limit_of_nodes};
ghost use Rattle.sj_table.specs.Table.{AreEntered, IsEntered, IsTable, Leads, at_node, places_of};

use crate::leads::Row;
use sj_base::NoMemory;
use sj_lang::{Arms, Item, Proto, append_copies};
use std::alloc::Global;
use std::slice::from_ref;

/// Puts the nodes of a place after the others, where that node is after the place, and answers
/// at which node the place begins.
#[cycle(build)]
pub(crate) fn add_place(
    alloc: Global,
    rows: &mut Vec<Row>,
    place: &Proto,
    next: u32,
) -> Result<u32, NoMemory>
    requires back { AreBack rows.old.items }
    requires next { next ≤ length rows.old.items }
    requires few { length rows.old.items + node_count place.now < limit_of_nodes }
    ensures leads { IfOk result (λ n. Leads (places_of rows.new.items) n place.now
        (at_node (places_of rows.old.items) next)) }
    ensures grown { IfOk result (λ n. Grown rows.old.items rows.new.items) }
    ensures count { IfOk result (λ n. length rows.new.items ≡ length rows.old.items + node_count place.now) }
{
    let mut node = next;
    let mut at = place.items.len();
    while at > 0 {
        at -= 1;
        node = add_item(alloc, rows, &place.items[at], node)?;
    }
    Ok(node)
}

#[cycle(build)]
fn add_item(alloc: Global, rows: &mut Vec<Row>, item: &Item, next: u32) -> Result<u32, NoMemory>
    requires back { AreBack rows.old.items }
    requires next { next ≤ length rows.old.items }
    requires few { length rows.old.items + node_count (followed item.now done) < limit_of_nodes }
    ensures within { IfOk result (λ n. n ≤ length rows.new.items) }
    ensures leads { IfOk result (λ n. at_node (places_of rows.new.items) n
        ≡ followed item.now (at_node (places_of rows.old.items) next)) }
    ensures grown { IfOk result (λ n. Grown rows.old.items rows.new.items) }
    ensures count { IfOk result (λ n. length rows.new.items
        ≡ length rows.old.items + node_count (followed item.now done)) }
{
    match item {
        Item::Send(_) | Item::Recv(_) => {
            let copy = copied_item(alloc, item)?;
            add_node(rows, copy, next, Vec::new(alloc))
        }
        Item::Select(arms) | Item::Branch(arms) => {
            let inside = add_arms(alloc, rows, arms, next)?;
            let copy = copied_item(alloc, item)?;
            let node = add_node(rows, copy, next, inside)?;
            Ok(node)
        }
        Item::OutLoop(body) | Item::InLoop(body) => add_loop(alloc, rows, item, body, next),
    }
}

// The body's nodes are after the loop's own.
#[cycle(build)]
fn add_loop(
    alloc: Global,
    rows: &mut Vec<Row>,
    item: &Item,
    body: &Proto,
    next: u32,
) -> Result<u32, NoMemory>
    requires loops { IsLoop item.now body.now }
    requires back { AreBack rows.old.items }
    requires next { next ≤ length rows.old.items }
    requires few { length rows.old.items + node_count (followed item.now done) < limit_of_nodes }
    ensures within { IfOk result (λ n. n ≤ length rows.new.items) }
    ensures leads { IfOk result (λ n. at_node (places_of rows.new.items) n
        ≡ followed item.now (at_node (places_of rows.old.items) next)) }
    ensures grown { IfOk result (λ n. Grown rows.old.items rows.new.items) }
    ensures count { IfOk result (λ n. length rows.new.items
        ≡ length rows.old.items + node_count (followed item.now done)) }
{
    let copy = copied_item(alloc, item)?;
    let here = add_row(rows, copy, next, Vec::new(alloc))?;
    let first = add_place(alloc, rows, body, here)?;
    turn(rows, here, first)?;
    Ok(here)
}

// Answers at which nodes the arms begin.
#[cycle(build)]
fn add_arms(
    alloc: Global,
    rows: &mut Vec<Row>,
    choice: &Arms,
    next: u32,
) -> Result<Vec<u32>, NoMemory>
    requires back { AreBack rows.old.items }
    requires next { next ≤ length rows.old.items }
    requires few { length rows.old.items + arm_nodes choice.now < limit_of_nodes }
    ensures entered { IfOk result (λ ns. AreEntered (places_of rows.new.items) choice.now
        (at_node (places_of rows.old.items) next) ns.items) }
    ensures grown { IfOk result (λ ns. Grown rows.old.items rows.new.items) }
    ensures count { IfOk result (λ ns. length rows.new.items ≡ length rows.old.items + arm_nodes choice.now) }
{
    let mut inside = Vec::new(alloc);
    for arm in &choice.arms {
        let node = add_place(alloc, rows, &arm.rest, next)?;
        inside.push(node)?;
    }
    Ok(inside)
}

pub(crate) fn copied_item(alloc: Global, item: &Item) -> Result<Item, NoMemory>
    ensures { IfOk result (λ i. i ≡ item.now) }
{
    let mut copies = Vec::new(alloc);
    append_copies(alloc, &mut copies, from_ref(item))?;
    Ok(copies.remove(0))
}

// The node of an item into which its inner nodes lead.
fn add_node(rows: &mut Vec<Row>, item: Item, next: u32, inside: Vec<u32>) -> Result<u32, NoMemory>
    requires next { next ≤ length rows.old.items }
    requires few { length rows.old.items < limit_of_nodes }
    requires entered { IsEntered (places_of rows.old.items) item
        (at_node (places_of rows.old.items) next) inside.items }
    ensures within { IfOk result (λ n. n ≤ length rows.new.items) }
    ensures leads { IfOk result (λ n. at_node (places_of rows.new.items) n
        ≡ followed item (at_node (places_of rows.old.items) next)) }
    ensures grown { IfOk result (λ n. Grown rows.old.items rows.new.items) }
    ensures count { IfOk result (λ n. length rows.new.items ≡ length rows.old.items + 1) }
{
    let node = add_row(rows, item, next, inside)?;
    Ok(node)
}

fn add_row(rows: &mut Vec<Row>, item: Item, next: u32, inside: Vec<u32>) -> Result<u32, NoMemory>
    requires { length rows.old.items < limit_of_nodes }
    ensures node { IfOk result (λ n. n ≡ length rows.old.items + 1) }
    ensures pushed { OnOk result (rows.new.items
        ≡ rows.old.items ++ record { item = item; next = next; inside = inside } ∷ []) }
{
    let node = rows.len() as u32 + 1;
    rows.push(Row { item, next, inside })?;
    Ok(node)
}

// The body of the loop at that node begins at the other node.
fn turn(rows: &mut Vec<Row>, node: u32, first: u32) -> Result<(), NoMemory>
    requires some { 0 < node }
    requires there { node ≤ length rows.old.items }
    ensures { OnOk result ((at : ℕ) → at + 1 ≡ node → Turned at first rows.old.items rows.new.items) }
{
    let row = &mut rows[node as usize - 1];
    row.inside.push(first)?;
    Ok(())
}

/// The items from that node on.
pub(crate) fn items_at(alloc: Global, rows: &[Row], node: u32) -> Result<Vec<Item>, NoMemory>
    requires { IsTable rows.now }
    ensures { IfOk result (λ is. place_of is.items ≡ at_node (places_of rows.now) node) }
{
    let mut items = Vec::new(alloc);
    let mut at = node;
    while at != 0 && at as usize <= rows.len() {
        let row = &rows[at as usize - 1];
        items.push(copied_item(alloc, &row.item)?)?;
        at = row.next;
    }
    Ok(items)
}
