//! Whether a file is within the limits.
#![tactic(auto, using(crate::proofs::ItemLemmas::counts))]

ghost use Rattle.std.specs.Prelude.{◌≡◌, ◌↔◌, ◌+◌, ◌<◌, ◌≤◌, IsTrue, MatchOption};
ghost use Rattle.std.specs.List.{AllByRecursion};
ghost use Rattle.sj_lang.specs.ItemCount.{item_count, kind_items, arm_items};
ghost use Rattle.sj_lang.specs.Place.{done};
ghost use Rattle.sj_lang.specs.View.{place_of, followed, carried_of, choices_of};
ghost use Rattle.sj_lang.specs.FileView.{file_of};
ghost use Rattle.sj_lang.specs.Limits.{IsWithin, limits};
ghost use Rattle.sj_check.specs.Views.{protocols_of};

use sj_lang::{Arm, Arms, File, Item, Kind, Proto, ProtocolDef};

/// Whether the file has at most 256 protocols of at most 1,024 items each, inner ones counted,
/// 16 parties and 64 connections.
pub fn is_within_limits(file: &File) -> bool
    ensures { IsTrue result ↔ IsWithin limits (file_of file.now) }
{
    if file.protocols.len() > 256 || file.parties.len() > 16 || file.connects.len() > 64 {
        return false;
    }
    are_small(&file.protocols)
}

fn are_small(protocols: &[ProtocolDef]) -> bool
    ensures { IsTrue result ↔ AllByRecursion (λ p. item_count p.body ≤ limits.items) (protocols_of protocols.now) }
{
    for protocol in protocols {
        if !is_small(&protocol.body) {
            return false;
        }
    }
    true
}

fn is_small(p: &Proto) -> bool
    ensures { IsTrue result ↔ (item_count p.now ≤ limits.items) }
{
    room_behind(p, 1024).is_some()
}

// The room that the protocol's items leave, where they fit into it.
#[cycle(room)]
fn room_behind(p: &Proto, room: u32) -> Option<u32>
    ensures { MatchOption result (room < item_count p.now) (λ left. left + item_count p.now ≡ room) }
{
    room_behind_items(&p.items, room)
}

#[cycle(room)]
fn room_behind_items(items: &[Item], room: u32) -> Option<u32>
    ensures { let count = item_count (place_of items.now) in
        MatchOption result (room < count) (λ left. left + count ≡ room) }
{
    let mut left = room;
    for item in items {
        left = room_behind_item(item, left)?;
    }
    Some(left)
}

#[cycle(room)]
fn room_behind_item(item: &Item, room: u32) -> Option<u32>
    ensures { let count = item_count (followed item.now done) in
        MatchOption result (room < count) (λ left. left + count ≡ room) }
{
    if room == 0 {
        return None;
    }
    let left = room - 1;
    match item {
        Item::Send(kind) => room_behind_kind(kind, left),
        Item::Recv(kind) => room_behind_kind(kind, left),
        Item::Select(choice) => room_behind_choice(choice, left),
        Item::Branch(choice) => room_behind_choice(choice, left),
        Item::OutLoop(body) => room_behind(body, left),
        Item::InLoop(body) => room_behind(body, left),
    }
}

#[cycle(room)]
fn room_behind_kind(kind: &Kind, room: u32) -> Option<u32>
    ensures { let count = kind_items (carried_of kind.now) in
        MatchOption result (room < count) (λ left. left + count ≡ room) }
{
    match kind {
        Kind::Session(p) => room_behind(p, room),
        _ => Some(room),
    }
}

#[cycle(room)]
fn room_behind_choice(choice: &Arms, room: u32) -> Option<u32>
    ensures { let count = arm_items choice.now in
        MatchOption result (room < count) (λ left. left + count ≡ room) }
{
    room_behind_arms(&choice.arms, room)
}

#[cycle(room)]
fn room_behind_arms(arms: &[Arm], room: u32) -> Option<u32>
    ensures { let count = arm_items (choices_of arms.now) in
        MatchOption result (room < count) (λ left. left + count ≡ room) }
{
    let mut left = room;
    for arm in arms {
        left = room_behind(&arm.rest, left)?;
    }
    Some(left)
}
