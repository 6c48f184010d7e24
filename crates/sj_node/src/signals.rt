//! A Signal comes to a record that is used, parked or closed.
ghost use Rattle.std.specs.Prelude.{◌≡◌, ◌+◌, ◌^◌, ◌<◌, ◌≤◌, Some, None, IfOk, IfErr, OnErr};
ghost use Rattle.std.specs.Prelude.{IsErrOf, length, map, max, option_map, vec_len};
ghost use Rattle.sj_end.specs.Views.{held_at, post_at};
ghost use Rattle.sj_node.specs.Arriving.{main_row};
ghost use Rattle.sj_node.specs.Slots.{main_at, mains_in};
ghost use Rattle.sj_node.specs.Passing.{GoTo, IsUnfit, SendsAtMain, cached_main};
ghost use Rattle.sj_rules.specs.Record as rules;
ghost use Rattle.sj_rules.specs.Rows as rows;
ghost use Rattle.sj_base.specs.declared.EndId.{EndId};
ghost use Rattle.sj_handover.specs.Passing.{closed_state, held_state, parked_state, usable_at};
ghost use Rattle.sj_rules.specs.Record.{EndAt, HeldAt};
ghost use Rattle.sj_table.specs.declared.table.Spot.{Spot};

use crate::DeliverRefusal;
use crate::arrivals::defer;
use crate::slots::{Main, slot_of};
use sj_base::EndId;
use sj_end::{Body, Closed, End, Held, MAX_CONN, Parked, Post};
use sj_handover::{Usable, passive};
use std::alloc::Global;

/// Whether the Signal from that party fits the end.
pub(crate) fn signal_fits(end: &End, from: u16, conn: u32, taken: u32) -> bool
    ensures { result ≡ rows.signal_fits end.now from conn taken }
{
    conn == end.conn
        && end.conn < MAX_CONN
        && from == end.peer
        && end.base <= taken
        && taken <= end.sent
}

/// The other end of a held end goes to that party.
fn pass_held(
    alloc: Global,
    held: Held,
    from: u16,
    conn: u32,
    party: u16,
    taken: u32,
) -> Result<(Held, Vec<Post>), (Held, DeliverRefusal)>
    ensures ok { IfOk result (λ r. (to : EndId) → rows.at_held max (held_at held) from
        (rules.Signal to conn party taken) ≡ Some (record { state = held_at r.0; posts = map post_at r.1.items })) }
    ensures goes { IfOk result (λ r. GoTo from party r.1.items) }
    ensures count { IfOk result (λ r. vec_len r.1 ≤ length held.end.cache + 2) }
    ensures unfit { IfErr result (λ e. IsUnfit e.1 → (to : EndId) → rows.at_held max (held_at held) from
        (rules.Signal to conn party taken) ≡ None) }
    ensures back { IfErr result (λ e. held_at e.0 ≡ held_at held) }
{
    if !signal_fits(&held.end, from, conn, taken) {
        return Err((held, DeliverRefusal::Unfit));
    }
    match passive(alloc, Usable::Held(held), from, party, taken) {
        Ok((state, posts)) => Ok((held_in(state), posts)),
        Err(state) => Err((held_in(state), DeliverRefusal::NoMemory)),
    }
}

fn held_in(state: Usable) -> Held
    requires { (h : HeldAt Spot) × (usable_at state ≡ held_state h) }
    ensures { usable_at state ≡ held_state (held_at result) }
{
    match state {
        Usable::Held(held) => held,
        _ => unreachable!(),
    }
}

/// The other end of a closed end goes to that party.
fn pass_closed(
    alloc: Global,
    end: Closed,
    from: u16,
    conn: u32,
    party: u16,
    taken: u32,
) -> Result<(Closed, Vec<Post>), (Closed, DeliverRefusal)>
    ensures ok { IfOk result (λ r. rows.passive_closed max end.end from conn party taken
        ≡ Some (record { state = r.0.end; posts = map post_at r.1.items })) }
    ensures goes { IfOk result (λ r. GoTo from party r.1.items) }
    ensures count { IfOk result (λ r. vec_len r.1 ≤ length end.end.cache + 2) }
    ensures unfit { IfErr result (λ e. IsUnfit e.1 → rows.passive_closed max end.end from conn party taken ≡ None) }
    ensures back { IfErr result (λ e. e.0.end ≡ end.end) }
{
    if !signal_fits(&end.end, from, conn, taken) {
        return Err((end, DeliverRefusal::Unfit));
    }
    match passive(alloc, Usable::Closed(end), from, party, taken) {
        Ok((state, posts)) => Ok((closed_in(state), posts)),
        Err(state) => Err((closed_in(state), DeliverRefusal::NoMemory)),
    }
}

fn closed_in(state: Usable) -> Closed
    requires { (e : EndAt Spot) × (usable_at state ≡ closed_state e) }
    ensures { usable_at state ≡ closed_state result.end }
{
    match state {
        Usable::Closed(end) => end,
        _ => unreachable!(),
    }
}

/// The other end of a parked end goes to that party.
pub(crate) fn pass_parked(
    alloc: Global,
    end: Parked,
    from: u16,
    conn: u32,
    party: u16,
    taken: u32,
) -> Result<(Parked, Vec<Post>), (Parked, DeliverRefusal)>
    ensures ok { IfOk result (λ r. rows.passive max end.end.value from conn party taken
        ≡ Some (record { state = r.0.end.value; posts = map post_at r.1.items })) }
    ensures goes { IfOk result (λ r. GoTo from party r.1.items) }
    ensures count { IfOk result (λ r. vec_len r.1 ≤ length end.end.value.cache + 2) }
    ensures unfit { IfErr result (λ e. IsUnfit e.1 → rows.passive max end.end.value from conn party taken ≡ None) }
    ensures back { IfErr result (λ e. e.0.end.value ≡ end.end.value) }
{
    if !signal_fits(&end.end, from, conn, taken) {
        return Err((end, DeliverRefusal::Unfit));
    }
    match passive(alloc, Usable::Parked(end), from, party, taken) {
        Ok((state, posts)) => Ok((parked_in(state), posts)),
        Err(state) => Err((parked_in(state), DeliverRefusal::NoMemory)),
    }
}

fn parked_in(state: Usable) -> Parked
    requires { (e : EndAt Spot) × (usable_at state ≡ parked_state e) }
    ensures { usable_at state ≡ parked_state result.end.value }
{
    match state {
        Usable::Parked(end) => end,
        _ => unreachable!(),
    }
}

/// A Signal comes to an end with that main record. Answers what is sent.
pub(crate) fn signal_to_slot(
    alloc: Global,
    slot: &mut Option<Main>,
    from: u16,
    to: EndId,
    conn: u32,
    party: u16,
    taken: u32,
) -> Result<Vec<Post>, DeliverRefusal>
    ensures ok { IfOk result (λ r. main_row max from (rules.Signal to conn party taken)
        (option_map main_at slot.old)
        ≡ Some (record { state = option_map main_at slot.new; posts = map post_at r.items })) }
    ensures goes { IfOk result (λ r. GoTo from party r.items) }
    ensures count { IfOk result (λ r. vec_len r ≤ cached_main (option_map main_at slot.old) + 2) }
    ensures unfit { IsErrOf result DeliverRefusal.Unfit → main_row max from
        (rules.Signal to conn party taken) (option_map main_at slot.old) ≡ None }
    ensures err { OnErr result (option_map main_at slot.new ≡ option_map main_at slot.old) }
{
    match slot.take() {
        Some(Main::Held(held)) => match pass_held(alloc, held, from, conn, party, taken) {
            Ok((held, posts)) => {
                *slot = Some(Main::Held(held));
                Ok(posts)
            }
            Err((held, refusal)) => {
                *slot = Some(Main::Held(held));
                Err(refusal)
            }
        },
        Some(Main::Closed(end)) => match pass_closed(alloc, end, from, conn, party, taken) {
            Ok((end, posts)) => {
                *slot = Some(Main::Closed(end));
                Ok(posts)
            }
            Err((end, refusal)) => {
                *slot = Some(Main::Closed(end));
                Err(refusal)
            }
        },
        Some(Main::Expected(mut expected)) => {
            let body = Body::Signal {
                to,
                conn,
                party,
                taken,
            };
            let deferred = defer(&mut expected, from, body);
            *slot = Some(Main::Expected(expected));
            match deferred {
                Ok(()) => Ok(Vec::new(alloc)),
                Err(refusal) => Err(refusal),
            }
        }
        None => Err(DeliverRefusal::Unfit),
    }
}

/// How many messages the main record of the end has cached.
pub(crate) fn cached_at(mains: &[Option<Main>], end: EndId) -> usize
    ensures count { result ≡ cached_main (mains_in mains.now end) }
    ensures small { result < 2 ^ 63 }
{
    match slot_of(end, mains.len()) {
        Some(at) => match &mains[at] {
            Some(Main::Held(held)) => held.end.cache.len(),
            Some(Main::Closed(closed)) => closed.end.cache.len(),
            _ => 0,
        },
        None => 0,
    }
}

/// A Signal comes to the main record of its end. Answers what is sent.
pub(crate) fn signal_to_main(
    alloc: Global,
    mains: &mut Vec<Option<Main>>,
    from: u16,
    to: EndId,
    conn: u32,
    party: u16,
    taken: u32,
) -> Result<Vec<Post>, DeliverRefusal>
    ensures ok { IfOk result (λ r. SendsAtMain from to (rules.Signal to conn party taken)
        (mains_in mains.old.items) (mains_in mains.new.items) (map post_at r.items)) }
    ensures goes { IfOk result (λ r. GoTo from party r.items) }
    ensures count { IfOk result (λ r. vec_len r ≤ cached_main (mains_in mains.old.items to) + 2) }
    ensures unfit { IsErrOf result DeliverRefusal.Unfit → main_row max from
        (rules.Signal to conn party taken) (mains_in mains.old.items to) ≡ None }
    ensures err { OnErr result (mains_in mains.new.items ≡ mains_in mains.old.items) }
{
    let Some(at) = slot_of(to, mains.len()) else {
        return Err(DeliverRefusal::Unfit);
    };
    let slot = &mut mains[at];
    signal_to_slot(alloc, slot, from, to, conn, party, taken)
}
