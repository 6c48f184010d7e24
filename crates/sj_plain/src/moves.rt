//! The place of an end moves past a message, its items moved and not copied.
#![tactic(auto, using(crate::proofs::MoveLemmas::moves))]

ghost use Rattle.std.specs.Prelude.{◌≡◌, ◌+◌, ◌<◌, ◌≤◌, ◌^◌, ◌++◌, vec_len, vec_capacity, IsOk, OnOk, OnErr};
ghost use Rattle.sj_lang.specs.View.{place_of};
ghost use Rattle.sj_lang.specs.After.{arm_count, arm_rest};
ghost use Rattle.sj_semantics.specs.Uses.{place_behind};
ghost use Rattle.sj_plain.specs.Moves.{arms_in, place_length, after_move, IsOpen};

use sj_base::{Msg, NoMemory};
use sj_lang::{Item, Proto, Way, append_copies, arm_named, is_carried};
use std::alloc::Global;
use std::mem::swap;

/// How a message moves a place.
enum Move {
    /// It is not next there.
    Stay,
    /// Past the first item.
    Pass,
    /// Through the body of the first item, which comes again after it.
    Turn,
    /// Into the arm of that number of the first item.
    Enter(usize),
}

/// Moves the place past the message. It stays where the message isn't next. One more turn of a
/// loop copies the body of the loop, and nothing else copies items.
pub(crate) fn advance(alloc: Global, place: &mut Proto, way: Way, msg: &Msg) -> Result<(), NoMemory>
    ensures ok { OnOk result (place.new ≡ place_behind place.old way msg.now) }
    ensures err { OnErr result (place.new ≡ place.old) }
{
    match move_of(&place.items, way, msg) {
        Move::Stay => Ok(()),
        Move::Pass => {
            let _ = place.items.remove(0);
            Ok(())
        }
        Move::Turn => turn(alloc, &mut place.items),
        Move::Enter(arm) => enter(alloc, &mut place.items, arm),
    }
}

fn move_of(items: &[Item], way: Way, msg: &Msg) -> Move
    ensures open { IsOpen items.now result }
    ensures after { after_move items.now result ≡ place_behind (place_of items.now) way msg.now }
{
    let Some(first) = items.first() else {
        return Move::Stay;
    };
    match (first, way) {
        (Item::Send(kind), Way::Out) | (Item::Recv(kind), Way::Into) => {
            if is_carried(kind, msg) {
                Move::Pass
            } else {
                Move::Stay
            }
        }
        (Item::Select(choice), Way::Out) | (Item::Branch(choice), Way::Into) => {
            let Msg::Label(label) = msg else {
                return Move::Stay;
            };
            match arm_named(choice, *label) {
                Some(arm) => Move::Enter(arm),
                None => Move::Stay,
            }
        }
        (Item::OutLoop(_), Way::Out) | (Item::InLoop(_), Way::Into) => match msg {
            Msg::More(true) => Move::Turn,
            Msg::More(false) => Move::Pass,
            _ => Move::Stay,
        },
        _ => Move::Stay,
    }
}

// Puts one turn of the loop before it.
fn turn(alloc: Global, items: &mut Vec<Item>) -> Result<(), NoMemory>
    requires { IsOpen items.old.items Move.Turn }
    ensures ok { OnOk result (place_of items.new.items ≡ after_move items.old.items Move.Turn) }
    ensures err { OnErr result (items.new.items ≡ items.old.items) }
{
    let mut front = Vec::new(alloc);
    match &items[0] {
        Item::OutLoop(body) | Item::InLoop(body) => append_copies(alloc, &mut front, &body.items)?,
        _ => return Ok(()),
    }
    put_behind(items, &mut front)
}

// Puts the items of the arm in place of the choice.
fn enter(alloc: Global, items: &mut Vec<Item>, arm: usize) -> Result<(), NoMemory>
    requires { IsOpen items.old.items (Move.Enter arm) }
    ensures ok { OnOk result (place_of items.new.items
        ≡ after_move items.old.items (Move.Enter arm)) }
    ensures err { OnErr result (items.new.items ≡ items.old.items) }
{
    let mut front = Vec::new(alloc);
    front.reserve(arm_length(&items[0], arm) + items.len())?;
    let mut own = taken_arm(items.remove(0), arm);
    // The room is there for both.
    front.append(&mut own.items)?;
    put_behind(items, &mut front)
}

fn arm_length(item: &Item, arm: usize) -> usize
    requires { arm < arm_count (arms_in item.now) }
    ensures length { result ≡ place_length (arm_rest arm (arms_in item.now)) }
    ensures fits { result < 2 ^ 63 }
{
    match item {
        Item::Select(choice) | Item::Branch(choice) => choice.arms[arm].rest.items.len(),
        _ => 0,
    }
}

fn taken_arm(item: Item, arm: usize) -> Proto
    requires { arm < arm_count (arms_in item) }
    ensures { result ≡ arm_rest arm (arms_in item) }
{
    match item {
        Item::Select(mut choice) | Item::Branch(mut choice) => choice.arms.swap_remove(arm).rest,
        _ => unreachable!(),
    }
}

// Moves the items after those of `front`, and swaps the two lists.
fn put_behind(items: &mut Vec<Item>, front: &mut Vec<Item>) -> Result<(), NoMemory>
    ensures ok { OnOk result (items.new.items ≡ front.old.items ++ items.old.items) }
    ensures err { OnErr result (items.new.items ≡ items.old.items) }
    ensures room { vec_len front.old + vec_len items.old ≤ vec_capacity front.old → IsOk result }
{
    front.append(items)?;
    swap(items, front);
    Ok(())
}
