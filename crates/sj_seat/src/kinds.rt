//! The table of a file's protocols and of the session kinds that they carry.
#![tactic(auto, using(crate::proofs::KindLemmas::kinds))]

ghost use Rattle.std.specs.Prelude.{◌≡◌, ◌+◌, ◌<◌, ℕ, IfOk, IfSome, IsTrue, OnOk, is_some, map, true};
ghost use Rattle.sj_check.specs.Held.{file_in};
ghost use Rattle.sj_lang.specs.FileAt.{body_named, protocol_named};
ghost use Rattle.sj_lang.specs.FileView.{file_of, protocol_of};
ghost use Rattle.sj_lang.specs.Place.{done};
ghost use Rattle.sj_lang.specs.View.{choices_of, followed, place_of};
ghost use Rattle.sj_seat.specs.Kinds.{AreNamedAlike};
ghost use Rattle.sj_seat.specs.Places.{CarriesPlaces};
ghost use Rattle.sj_table.specs.Nodes.{arm_nodes, limit_of_nodes, node_count, nodes_of};
ghost use Rattle.sj_table.specs.Spots.{start_in};

use crate::carries_places;
use sj_base::NoMemory;
use sj_check::Accepted;
use sj_lang::{Arm, Arms, Item, Kind, Proto, ProtocolDef, copied};
use sj_table::Table;
use std::alloc::Global;

/// The table of the file's protocols and, behind them, of each session kind of which an end is taken
/// there, in which each protocol starts as in the file's own. None where it has no spot for a place
/// at which such an end begins, or would have 2^32 - 1 nodes: a file that was read never comes there.
pub fn seat_table(alloc: Global, accepted: &Accepted) -> Result<Option<Table>, NoMemory>
    ensures starts { IfOk result (λ o. IfSome o (λ t. (p : ℕ) → start_in t p
        ≡ body_named (file_of (file_in accepted.now)).protocols p)) }
    ensures carries { IfOk result (λ o. IfSome o CarriesPlaces) }
{
    let defs = with_kinds(alloc, &accepted.file().protocols)?;
    if !are_few(&defs) {
        return Ok(None);
    }
    let table = Table::compile(alloc, &defs)?;
    if carries_places(&table) {
        Ok(Some(table))
    } else {
        Ok(None)
    }
}

// The protocols, and then the kinds, each under the name of the protocol in which it stands.
fn with_kinds(alloc: Global, protocols: &[ProtocolDef]) -> Result<Vec<ProtocolDef>, NoMemory>
    ensures { IfOk result (λ defs. AreNamedAlike protocols.now defs.items) }
{
    let mut defs = copies_of(alloc, protocols)?;
    for def in protocols {
        add_kinds(alloc, &mut defs, def.name, &def.body)?;
    }
    Ok(defs)
}

fn copies_of(alloc: Global, protocols: &[ProtocolDef]) -> Result<Vec<ProtocolDef>, NoMemory>
    ensures { IfOk result (λ defs. map protocol_of defs.items ≡ map protocol_of protocols.now) }
{
    let mut defs = Vec::new(alloc);
    for def in protocols {
        let body = copied(alloc, &def.body)?;
        defs.push(ProtocolDef {
            line: def.line,
            name: def.name,
            body,
        })?;
    }
    Ok(defs)
}

// Puts the kind at the end, under a name that came before.
fn add_kind(
    alloc: Global,
    defs: &mut Vec<ProtocolDef>,
    name: u16,
    kind: &Proto,
) -> Result<(), NoMemory>
    requires named { is_some (protocol_named (map protocol_of defs.old.items) name) ≡ true }
    ensures { OnOk result (AreNamedAlike defs.old.items defs.new.items) }
{
    let body = copied(alloc, kind)?;
    let line = 0;
    defs.push(ProtocolDef { line, name, body })?;
    Ok(())
}

#[cycle(kinds)]
fn add_kinds(
    alloc: Global,
    defs: &mut Vec<ProtocolDef>,
    name: u16,
    place: &Proto,
) -> Result<(), NoMemory>
    requires named { is_some (protocol_named (map protocol_of defs.old.items) name) ≡ true }
    ensures { OnOk result (AreNamedAlike defs.old.items defs.new.items) }
{
    for item in &place.items {
        add_inside(alloc, defs, name, item)?;
    }
    Ok(())
}

#[cycle(kinds)]
fn add_inside(
    alloc: Global,
    defs: &mut Vec<ProtocolDef>,
    name: u16,
    item: &Item,
) -> Result<(), NoMemory>
    requires named { is_some (protocol_named (map protocol_of defs.old.items) name) ≡ true }
    ensures { OnOk result (AreNamedAlike defs.old.items defs.new.items) }
{
    match item {
        Item::Recv(Kind::Session(kind)) => {
            add_kind(alloc, defs, name, kind)?;
            add_kinds(alloc, defs, name, kind)
        }
        Item::Send(_) | Item::Recv(_) => Ok(()),
        Item::Select(choice) => add_in_choice(alloc, defs, name, choice),
        Item::Branch(choice) => add_in_choice(alloc, defs, name, choice),
        Item::OutLoop(body) => add_kinds(alloc, defs, name, body),
        Item::InLoop(body) => add_kinds(alloc, defs, name, body),
    }
}

#[cycle(kinds)]
fn add_in_choice(
    alloc: Global,
    defs: &mut Vec<ProtocolDef>,
    name: u16,
    choice: &Arms,
) -> Result<(), NoMemory>
    requires named { is_some (protocol_named (map protocol_of defs.old.items) name) ≡ true }
    ensures { OnOk result (AreNamedAlike defs.old.items defs.new.items) }
{
    add_in_arms(alloc, defs, name, &choice.arms)
}

#[cycle(kinds)]
fn add_in_arms(
    alloc: Global,
    defs: &mut Vec<ProtocolDef>,
    name: u16,
    arms: &[Arm],
) -> Result<(), NoMemory>
    requires named { is_some (protocol_named (map protocol_of defs.old.items) name) ≡ true }
    ensures { OnOk result (AreNamedAlike defs.old.items defs.new.items) }
{
    for arm in arms {
        add_kinds(alloc, defs, name, &arm.rest)?;
    }
    Ok(())
}

fn are_few(defs: &[ProtocolDef]) -> bool
    ensures { IsTrue result → nodes_of (map protocol_of defs.now) < limit_of_nodes }
{
    let mut left = u32::MAX - 1;
    for def in defs {
        match room_after(&def.body, left) {
            Some(room) => left = room,
            None => return false,
        }
    }
    true
}

// The room that the place's nodes leave, where they fit into it.
#[cycle(room)]
fn room_after(place: &Proto, room: u32) -> Option<u32>
    ensures { IfSome result (λ left. left + node_count place.now ≡ room) }
{
    room_after_items(&place.items, room)
}

#[cycle(room)]
fn room_after_items(items: &[Item], room: u32) -> Option<u32>
    ensures { IfSome result (λ left. left + node_count (place_of items.now) ≡ room) }
{
    let mut left = room;
    for item in items {
        left = room_after_item(item, left)?;
    }
    Some(left)
}

#[cycle(room)]
fn room_after_item(item: &Item, room: u32) -> Option<u32>
    ensures { IfSome result (λ left. left + node_count (followed item.now done) ≡ room) }
{
    if room == 0 {
        return None;
    }
    let left = room - 1;
    match item {
        Item::Send(_) => Some(left),
        Item::Recv(_) => Some(left),
        Item::Select(choice) => room_after_choice(choice, left),
        Item::Branch(choice) => room_after_choice(choice, left),
        Item::OutLoop(body) => room_after(body, left),
        Item::InLoop(body) => room_after(body, left),
    }
}

#[cycle(room)]
fn room_after_choice(choice: &Arms, room: u32) -> Option<u32>
    ensures { IfSome result (λ left. left + arm_nodes choice.now ≡ room) }
{
    room_after_arms(&choice.arms, room)
}

#[cycle(room)]
fn room_after_arms(arms: &[Arm], room: u32) -> Option<u32>
    ensures { IfSome result (λ left. left + arm_nodes (choices_of arms.now) ≡ room) }
{
    let mut left = room;
    for arm in arms {
        left = room_after(&arm.rest, left)?;
    }
    Some(left)
}
