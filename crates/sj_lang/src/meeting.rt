//! Whether two protocols meet.
#![tactic(auto, using(crate::proofs::WithinLemmas::within, crate::proofs::ArmLemmas::arms))]

ghost use Rattle.std.specs.Prelude.{◌≡◌, ◌↔◌, ◌<◌, ◌≤◌, None, Some, is_some, IsTrue, IfSome, IfNone};
ghost use Rattle.sj_lang.specs.Place.{done};
ghost use Rattle.sj_lang.specs.View.{choices_of, followed, place_of};
ghost use Rattle.sj_lang.specs.After.{arm_count, arm_rest, at_label};
ghost use Rattle.sj_lang.specs.Meet.{Meets, StandsFor};
ghost use Rattle.sj_lang.specs.MeetTests.{arm_meets, arms_seen, each_label, meets as meets_by, seen};
ghost use Rattle.sj_lang.specs.Alike.{AlikeTo};

use crate::sameness::same_kind;
use crate::{Arm, Arms, Item, Proto, arm_named};

/// Whether what each of the two sends, the other can take. It takes no memory.
pub fn meets(a: &Proto, b: &Proto) -> bool
    ensures { IsTrue result ↔ Meets a.now b.now }
{
    meet(a, false, b)
}

/// Whether an end at the one place can stand where one at the other is wanted. It takes no memory.
pub fn stands_for(own: &Proto, wanted: &Proto) -> bool
    ensures { IsTrue result ↔ StandsFor own.now wanted.now }
{
    meet(own, true, wanted)
}

// Whether the one, or its dual where it is turned, meets the other.
#[cycle(meets)]
fn meet(a: &Proto, turned: bool, b: &Proto) -> bool
    ensures { result ≡ meets_by (seen turned a.now) b.now }
{
    meet_items(&a.items, turned, &b.items)
}

#[cycle(meets)]
fn meet_items(a: &[Item], turned: bool, b: &[Item]) -> bool
    ensures { result ≡ meets_by (seen turned (place_of a.now)) (place_of b.now) }
{
    if a.len() != b.len() {
        return false;
    }
    for i in 0..a.len() {
        if !meet_item(&a[i], turned, &b[i]) {
            return false;
        }
    }
    true
}

/// Whether the one item, or its dual where it is turned, meets the other.
#[cycle(meets)]
pub fn meet_item(a: &Item, turned: bool, b: &Item) -> bool
    ensures { result ≡ meets_by (seen turned (followed a.now done)) (followed b.now done) }
{
    match (a, b) {
        (Item::Send(k), Item::Recv(l)) => !turned && same_kind(k, l),
        (Item::Recv(k), Item::Send(l)) => !turned && same_kind(k, l),
        (Item::Send(k), Item::Send(l)) => turned && same_kind(k, l),
        (Item::Recv(k), Item::Recv(l)) => turned && same_kind(k, l),
        (Item::Select(x), Item::Branch(y)) => !turned && meet_arms(x, turned, y, x),
        (Item::Branch(x), Item::Select(y)) => !turned && meet_arms(x, turned, y, y),
        (Item::Select(x), Item::Select(y)) => turned && meet_arms(x, turned, y, y),
        (Item::Branch(x), Item::Branch(y)) => turned && meet_arms(x, turned, y, x),
        (Item::OutLoop(p), Item::InLoop(q)) => !turned && meet(p, turned, q),
        (Item::InLoop(p), Item::OutLoop(q)) => !turned && meet(p, turned, q),
        (Item::OutLoop(p), Item::OutLoop(q)) => turned && meet(p, turned, q),
        (Item::InLoop(p), Item::InLoop(q)) => turned && meet(p, turned, q),
        _ => false,
    }
}

// Whether each of these labels is one of both, and the two arms meet. As far as a choice has these
// labels in this order, none is looked up.
#[cycle(meets)]
fn meet_arms(a: &Arms, turned: bool, b: &Arms, labels: &Arms) -> bool
    ensures { result ≡ each_label (arm_meets (arms_seen turned a.now)) labels.now b.now }
{
    let in_a = arms_alike(&a.arms, &labels.arms);
    let in_b = arms_alike(&b.arms, &labels.arms);
    for i in 0..labels.arms.len() {
        let label = labels.arms[i].label;
        let Some(p) = arm_from(a, in_a, i, label) else {
            return false;
        };
        let Some(q) = arm_from(b, in_b, i, label) else {
            return false;
        };
        if !meet(&a.arms[p].rest, turned, &b.arms[q].rest) && !has_label(&labels.arms[..i], label) {
            return false;
        }
    }
    true
}

// As many arms, from the first on, have the labels of these.
fn arms_alike(arms: &[Arm], labels: &[Arm]) -> usize
    ensures { AlikeTo result arms.now labels.now }
{
    let mut count = 0;
    while count < arms.len() && count < labels.len() && arms[count].label == labels[count].label {
        count += 1;
    }
    count
}

// The number i where so many arms are known, else that of the first arm of that label.
fn arm_from(choice: &Arms, known: usize, i: usize, label: u16) -> Option<usize>
    requires { known ≤ arm_count choice.now }
    ensures within { IfSome result (λ k. k < arm_count choice.now) }
    ensures there { i < known → result ≡ Some i }
    ensures found { IfSome result (λ k. known ≤ i → at_label label choice.now ≡ Some (arm_rest k choice.now)) }
    ensures none { IfNone result (at_label label choice.now ≡ None) }
{
    if i < known {
        Some(i)
    } else {
        arm_named(choice, label)
    }
}

// Whether one of the arms has that label.
fn has_label(arms: &[Arm], label: u16) -> bool
    ensures { result ≡ is_some (at_label label (choices_of arms.now)) }
{
    for arm in arms {
        if arm.label == label {
            return true;
        }
    }
    false
}
