//! Labels that stand once.
ghost use Rattle.std.specs.Prelude.{◌≡◌, map, IfOk};
ghost use Rattle.sj_lang.specs.CodeView.{arm_of, branches_of};
ghost use Rattle.sj_acceptance.specs.LabelTests as labels;
ghost use Rattle.sj_acceptance.specs.Labels.{labels_of, branch_labels};
ghost use Rattle.sj_acceptance.specs.FirstItem.{choices};
ghost use Rattle.sj_table.specs.Spots.{place_in};

use sj_base::NoMemory;
use sj_lang::{Arms, Item, StmtArm};
use sj_table::{Spot, Table};
use std::alloc::Global;

/// Whether the arms are those of the choice that stands first, each once, and at least one.
pub fn are_arms_of(
    alloc: Global,
    table: &Table,
    spot: Spot,
    arms: &[StmtArm],
) -> Result<bool, NoMemory>
    ensures { let bs = branches_of (map arm_of arms.now) in
        IfOk result (λ r. r ≡ labels.are_labels_of (choices (place_in table.now spot)) (branch_labels bs)) }
{
    let named = arm_labels(alloc, arms)?;
    let wanted = match table.split(spot) {
        Some((Item::Select(choice), _)) => choice_labels(alloc, choice)?,
        Some((Item::Branch(choice), _)) => choice_labels(alloc, choice)?,
        _ => Vec::new(alloc),
    };
    // A choice has few labels: of more arms than these one is soon found twice.
    Ok(
        !named.is_empty()
            && are_among(&named, &wanted)
            && all_differ(&named)
            && are_among(&wanted, &named),
    )
}

fn arm_labels(alloc: Global, arms: &[StmtArm]) -> Result<Vec<u16>, NoMemory>
    ensures { IfOk result (λ v. v.items ≡ branch_labels (branches_of (map arm_of arms.now))) }
{
    let mut all = Vec::new(alloc);
    for arm in arms {
        all.push(arm.label)?;
    }
    Ok(all)
}

fn choice_labels(alloc: Global, choice: &Arms) -> Result<Vec<u16>, NoMemory>
    ensures { IfOk result (λ v. v.items ≡ labels_of choice.now) }
{
    let mut all = Vec::new(alloc);
    for arm in &choice.arms {
        all.push(arm.label)?;
    }
    Ok(all)
}

pub fn is_among(label: u16, all: &[u16]) -> bool
    ensures { result ≡ labels.is_among label all.now }
{
    for other in all {
        if *other == label {
            return true;
        }
    }
    false
}

pub fn all_differ(all: &[u16]) -> bool
    ensures { result ≡ labels.all_differ all.now }
{
    for i in 0..all.len() {
        if is_among(all[i], &all[i + 1..]) {
            return false;
        }
    }
    true
}

fn are_among(some: &[u16], all: &[u16]) -> bool
    ensures { result ≡ labels.are_among some.now all.now }
{
    for label in some {
        if !is_among(*label, all) {
            return false;
        }
    }
    true
}
