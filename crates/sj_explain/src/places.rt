//! Places after an item, in an arm, and in a turn.

use sj_base::NoMemory;
use sj_lang::{Arms, Item, Proto, append_copies};
use std::alloc::Global;

/// What stands after the first item.
pub(crate) fn copied_rest(alloc: Global, place: &Proto) -> Result<Proto, NoMemory> {
    match place.items.split_first() {
        Some((_, rest)) => join_items(alloc, rest, &[]),
        None => join_items(alloc, &[], &[]),
    }
}

/// A turn of the loop that stands first, and then the place itself; the place itself where none
/// does.
pub(crate) fn copied_turn(alloc: Global, place: &Proto) -> Result<Proto, NoMemory> {
    match place.items.first() {
        Some(Item::OutLoop(body)) | Some(Item::InLoop(body)) => {
            join_items(alloc, &body.items, &place.items)
        }
        _ => join_items(alloc, &place.items, &[]),
    }
}

/// The first arm of that label of the choice that stands first, and what stands after it.
pub(crate) fn copied_arm(
    alloc: Global,
    place: &Proto,
    choice: &Arms,
    label: u16,
) -> Result<Option<Proto>, NoMemory> {
    let Some((_, rest)) = place.items.split_first() else {
        return Ok(None);
    };
    for arm in &choice.arms {
        if arm.label == label {
            return Ok(Some(join_items(alloc, &arm.rest.items, rest)?));
        }
    }
    Ok(None)
}

fn join_items(alloc: Global, first: &[Item], second: &[Item]) -> Result<Proto, NoMemory> {
    let mut items = Vec::new(alloc);
    append_copies(alloc, &mut items, first)?;
    append_copies(alloc, &mut items, second)?;
    Ok(Proto { items })
}
