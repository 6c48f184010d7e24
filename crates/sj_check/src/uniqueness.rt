//! Whether each choice names its labels once.
#![tactic(auto, using(crate::proofs::OnceLemmas::once))]

ghost use Rattle.std.specs.Prelude.{◌≡◌, ◌&&◌};
ghost use Rattle.sj_lang.specs.Place.{done};
ghost use Rattle.sj_lang.specs.View.{place_of, followed, carried_of, choices_of};
ghost use Rattle.sj_acceptance.specs.LabelTests as labels;
ghost use Rattle.sj_acceptance.specs.Labels.{labels_of};

use sj_lang::{Arm, Arms, Item, Kind, Proto};

/// Whether no choice in the protocol names a label twice.
#[cycle(once)]
pub fn names_once(p: &Proto) -> bool
    ensures { result ≡ labels.names_once p.now }
{
    items_once(&p.items)
}

#[cycle(once)]
fn items_once(items: &[Item]) -> bool
    ensures { result ≡ labels.names_once (place_of items.now) }
{
    for item in items {
        if !item_once(item) {
            return false;
        }
    }
    true
}

#[cycle(once)]
fn item_once(item: &Item) -> bool
    ensures { result ≡ labels.names_once (followed item.now done) }
{
    match item {
        Item::Send(kind) => kind_once(kind),
        Item::Recv(kind) => kind_once(kind),
        Item::Select(choice) => choice_once(choice),
        Item::Branch(choice) => choice_once(choice),
        Item::OutLoop(body) => names_once(body),
        Item::InLoop(body) => names_once(body),
    }
}

#[cycle(once)]
fn kind_once(kind: &Kind) -> bool
    ensures { result ≡ labels.carried_names_once (carried_of kind.now) }
{
    match kind {
        Kind::Session(p) => names_once(p),
        _ => true,
    }
}

#[cycle(once)]
fn choice_once(choice: &Arms) -> bool
    ensures { result ≡ (labels.all_differ (labels_of choice.now) && labels.arms_name_once choice.now) }
{
    labels_differ(&choice.arms) && arms_once(&choice.arms)
}

#[cycle(once)]
fn arms_once(arms: &[Arm]) -> bool
    ensures { result ≡ labels.arms_name_once (choices_of arms.now) }
{
    for arm in arms {
        if !names_once(&arm.rest) {
            return false;
        }
    }
    true
}

fn labels_differ(arms: &[Arm]) -> bool
    ensures { result ≡ labels.all_differ (labels_of (choices_of arms.now)) }
{
    for i in 0..arms.len() {
        if is_label(&arms[i + 1..], arms[i].label) {
            return false;
        }
    }
    true
}

fn is_label(arms: &[Arm], label: u16) -> bool
    ensures { result ≡ labels.is_among label (labels_of (choices_of arms.now)) }
{
    for arm in arms {
        if arm.label == label {
            return true;
        }
    }
    false
}
