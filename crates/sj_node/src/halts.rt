//! Whether a step can't be done yet.
ghost use Rattle.std.specs.Prelude.{◌≡◌};
ghost use Rattle.sj_node.specs.Halts.{accept_stop, hold_up, names_awaited, request_stop, stop_by};
ghost use Rattle.sj_node.specs.Node.{offers_of, steps_of};
ghost use Rattle.sj_offers.specs.Offers.{offers_in};
ghost use Rattle.sj_node.specs.Slots.{mains_in};
ghost use Rattle.sj_rules.specs.Halts.{is_delegated_enough, is_expected, lacks_message};

use crate::slots::{Main, slot_of};
use crate::{Halt, Node};
use sj_base::EndId;
use sj_machine::{MAX_HOPS, MAX_REQUESTS, MAX_STEPS};
use sj_offers::is_offering;
use sj_semantics::Want;

impl Node {
    /// Why that step can't be done yet, whatever its next message is.
    pub(crate) fn stop_at(&self, want: Want) -> Option<Halt>
        ensures { result ≡ stop_by (mains_in self.now.mains.items) self.now.requests (offers_of self.now)
            (steps_of self.now) want }
    {
        node_halt(
            &self.mains,
            self.requests,
            &self.offers,
            self.machine.steps(),
            want,
        )
    }
}

/// The first cause that applies: ended, at 10,000 steps, an awaited end, 100 handovers, no message,
/// 100 requests, no offer.
pub(crate) fn node_halt(
    mains: &[Option<Main>],
    requests: u8,
    offers: &[Vec<u32>],
    steps: u32,
    want: Want,
) -> Option<Halt>
    ensures { result ≡ stop_by (mains_in mains.now) requests (offers_in offers.now) steps want }
{
    if let Want::Ended = want {
        return Some(Halt::Ended);
    }
    if steps >= MAX_STEPS {
        return Some(Halt::AtLimit);
    }
    if names_awaited(mains, want) {
        return Some(Halt::Waits);
    }
    held_up(mains, requests, offers, want)
}

fn names_awaited(mains: &[Option<Main>], want: Want) -> bool
    ensures { result ≡ names_awaited (mains_in mains.now) want }
{
    match want {
        Want::Send { end, .. } | Want::Take { end, .. } | Want::Close { end } => {
            is_awaited(mains, end)
        }
        Want::Delegate { end, sent } => is_awaited(mains, end) || is_awaited(mains, sent),
        Want::Local | Want::Ended | Want::Request { .. } | Want::Accept { .. } => false,
    }
}

fn held_up(mains: &[Option<Main>], requests: u8, offers: &[Vec<u32>], want: Want) -> Option<Halt>
    ensures { result ≡ hold_up (mains_in mains.now) requests (offers_in offers.now) want }
{
    match want {
        Want::Delegate { sent, .. } => {
            if is_delegated_enough(mains, sent) {
                Some(Halt::AtLimit)
            } else {
                None
            }
        }
        Want::Take { end, .. } => {
            if lacks_message(mains, end) {
                Some(Halt::Waits)
            } else {
                None
            }
        }
        Want::Request { .. } => request_stop(requests),
        Want::Accept { from, .. } => accept_stop(offers, from),
        _ => None,
    }
}

/// Why a party that opened so many sessions can't request one.
pub(crate) fn request_stop(requests: u8) -> Option<Halt>
    ensures { result ≡ request_stop requests }
{
    if requests < MAX_REQUESTS {
        None
    } else {
        Some(Halt::AtLimit)
    }
}

/// Why it can't accept a session of that party yet.
pub(crate) fn accept_stop(offers: &[Vec<u32>], from: u16) -> Option<Halt>
    ensures { result ≡ accept_stop (offers_in offers.now) from }
{
    if is_offering(offers, from) {
        None
    } else {
        Some(Halt::Waits)
    }
}

fn is_awaited(mains: &[Option<Main>], end: EndId) -> bool
    ensures { result ≡ is_expected (mains_in mains.now end) }
{
    match slot_of(end, mains.len()) {
        Some(at) => matches!(&mains[at], Some(Main::Expected(_))),
        None => false,
    }
}

fn is_delegated_enough(mains: &[Option<Main>], end: EndId) -> bool
    ensures { result ≡ is_delegated_enough (mains_in mains.now end) }
{
    match slot_of(end, mains.len()) {
        Some(at) => match &mains[at] {
            Some(Main::Held(held)) => held.end.hops >= MAX_HOPS,
            _ => false,
        },
        None => false,
    }
}

fn lacks_message(mains: &[Option<Main>], end: EndId) -> bool
    ensures { result ≡ lacks_message (mains_in mains.now end) }
{
    match slot_of(end, mains.len()) {
        Some(at) => match &mains[at] {
            Some(Main::Held(held)) => held.untaken.is_empty(),
            _ => false,
        },
        None => false,
    }
}
