//! Which sessions each party offers, as lists.
ghost use Rattle.std.specs.Prelude.{◌≡◌, ◌++◌, ◌∷◌, [], Some, not, OnOk, OnErr};
ghost use Rattle.sj_offers.specs.Offers.{CanOffer, offering, offers_in};
ghost use Rattle.sj_rules.specs.Halts.{is_empty};
ghost use Rattle.sj_rules.specs.Opened as rules;

use sj_base::NoMemory;
use std::alloc::Global;

/// Whether the party offers any session.
pub fn is_offering(offers: &[Vec<u32>], from: u16) -> bool
    ensures { result ≡ not (is_empty (offers_in offers.now from)) }
{
    if from as usize >= offers.len() {
        return false;
    }
    let list = &offers[from as usize];
    !list.is_empty()
}

/// Of the sessions that the party offers the one with the smallest number.
pub fn offered_by(offers: &[Vec<u32>], from: u16) -> Option<u32>
    ensures { result ≡ rules.smallest (offers_in offers.now from) }
{
    if from as usize >= offers.len() {
        return None;
    }
    let list = &offers[from as usize];
    smallest_of(list)
}

fn smallest_of(numbers: &[u32]) -> Option<u32>
    ensures { result ≡ rules.smallest numbers.now }
{
    if numbers.is_empty() {
        return None;
    }
    let mut least = numbers[0];
    let mut at = 1;
    while at < numbers.len() {
        least = least.min(numbers[at]);
        at += 1;
    }
    Some(least)
}

/// Puts the session after those that the party offers.
pub fn offer(
    alloc: Global,
    offers: &mut Vec<Vec<u32>>,
    from: u16,
    sess: u32,
) -> Result<(), NoMemory>
    ensures ok { OnOk result (offers_in offers.new.items
        ≡ offering from (offers_in offers.old.items from ++ sess ∷ []) (offers_in offers.old.items)) }
    ensures err { OnErr result (offers_in offers.new.items ≡ offers_in offers.old.items) }
{
    match make_list(alloc, offers, from) {
        Ok(()) => {
            let list = &mut offers[from as usize];
            list.push_reserved(sess);
            Ok(())
        }
        Err(refusal) => Err(refusal),
    }
}

// Takes the memory for one more session of that party.
fn make_list(alloc: Global, offers: &mut Vec<Vec<u32>>, from: u16) -> Result<(), NoMemory>
    ensures same { offers_in offers.new.items ≡ offers_in offers.old.items }
    ensures room { OnOk result (CanOffer offers.new.items from) }
{
    while offers.len() <= from as usize {
        offers.push(Vec::new(alloc))?;
    }
    let list = &mut offers[from as usize];
    list.reserve(1)?;
    Ok(())
}

/// Takes the session off those that the party offers.
pub fn withdraw(offers: &mut Vec<Vec<u32>>, from: u16, sess: u32)
    requires { rules.smallest (offers_in offers.old.items from) ≡ Some sess }
    ensures { offers_in offers.new.items
        ≡ offering from (rules.without sess (offers_in offers.old.items from)) (offers_in offers.old.items) }
{
    let list = &mut offers[from as usize];
    list.retain(|number| *number != sess);
}
