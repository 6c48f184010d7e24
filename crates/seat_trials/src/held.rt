//! The ends that codes hold after a run.

use sj_seats::SeatedWorld;

/// Whether all parties hold the same ends at the same places in both worlds.
pub(crate) fn hold_the_same(one: &SeatedWorld, other: &SeatedWorld) -> bool {
    if one.parties() != other.parties() {
        return false;
    }
    for party in 0..one.parties() {
        if !holds_the_same(one, other, party as u16) {
            return false;
        }
    }
    true
}

fn holds_the_same(one: &SeatedWorld, other: &SeatedWorld, party: u16) -> bool {
    if usize::from(party) >= one.parties() || usize::from(party) >= other.parties() {
        return false;
    }
    match (one.ends(party), other.ends(party)) {
        (None, None) => true,
        (Some(ends), Some(others)) => {
            let mut at = 0usize;
            for held in ends {
                match others.get(at) {
                    Some(same) if same.end == held.end && same.place == held.place => {}
                    _ => return false,
                }
                at = at.saturating_add(1);
            }
            at == others.len()
        }
        _ => false,
    }
}
