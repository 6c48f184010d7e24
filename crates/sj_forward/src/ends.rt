//! The ends of a party, each in its slot, by session and then by side.
ghost use Rattle.std.specs.Prelude.{◌≡◌, ◌<◌, ◌^◌, ℕ, [], Some, None, IfSome, OnErr, OnOk, IsSome};
ghost use Rattle.std.specs.Prelude.{map, option_map, slice_get, true, vec_len};
ghost use Rattle.sj_forward.specs.Ends.{EndsStay, HasPlace, KeepsPlaces, SideStays, TakesFrom, Writes, has_waiting};
ghost use Rattle.sj_forward.specs.Ends.{held_in, is_storing, more_stored, records_in, slot_in, uses_in};
ghost use Rattle.sj_forward.specs.Views.{seen_of, sent_at, use_of};
ghost use Rattle.sj_forward_rules.specs.Node.{HeldAt};
ghost use Rattle.sj_forward_rules.specs.Ready.{has_message};
ghost use Rattle.sj_forward_rules.specs.Record as rules;

use crate::frame::Sent;
use crate::records::{Seen, Use};
use crate::slot::Slot;
use sj_base::{EndId, NoMemory};
use std::alloc::Global;
use std::collections::VecDeque;

/// The end where it is in use.
pub(crate) fn held_at(ends: &[Vec<Slot>], end: EndId) -> Option<Use>
    ensures { result ≡ option_map use_of (held_in ends.now end) }
{
    if end.sess as usize >= ends.len() {
        return None;
    }
    let row = &ends[end.sess as usize];
    if end.side as usize >= row.len() {
        return None;
    }
    let slot = &row[end.side as usize];
    slot.held()
}

/// The record of the end at that hop.
pub(crate) fn seen_at(ends: &[Vec<Slot>], end: EndId, hop: usize) -> Option<Seen>
    ensures value { result ≡ option_map seen_of (records_in ends.now end hop) }
    ensures small { IfSome result (λ _. hop < 2 ^ 63) }
{
    if end.sess as usize >= ends.len() {
        return None;
    }
    let row = &ends[end.sess as usize];
    if end.side as usize >= row.len() {
        return None;
    }
    let slot = &row[end.side as usize];
    slot.seen(hop)
}

/// Takes the memory for a record of the end at that hop.
pub(crate) fn make_place(
    alloc: Global,
    ends: &mut Vec<Vec<Slot>>,
    end: EndId,
    hop: usize,
) -> Result<(), NoMemory>
    ensures same { EndsStay ends.old.items ends.new.items }
    ensures place { OnOk result (HasPlace ends.new.items end hop) }
{
    make_slot(alloc, ends, end)?;
    let row = &mut ends[end.sess as usize];
    let slot = &mut row[end.side as usize];
    slot.make_record(hop)
}

/// A record of the end at that hop, in use from now on, to which nothing came.
pub(crate) fn begin(alloc: Global, ends: &mut Vec<Vec<Slot>>, end: EndId, hop: usize, behind: u16)
    requires { HasPlace ends.old.items end hop }
    ensures { Writes ends.old.items end (Some hop) hop
        (record { behind = behind; state = rules.Held [] }) ends.new.items }
{
    let row = &mut ends[end.sess as usize];
    let slot = &mut row[end.side as usize];
    slot.begin(alloc, hop, behind);
}

/// The end is delegated.
pub(crate) fn park(ends: &mut Vec<Vec<Slot>>, end: EndId)
    requires { IsSome (held_in ends.old.items end) }
    ensures { (h : HeldAt) → held_in ends.old.items end ≡ Some h → Writes ends.old.items end None h.hop
        (record { behind = h.behind; state = rules.Parked h.untaken }) ends.new.items }
{
    let row = &mut ends[end.sess as usize];
    let slot = &mut row[end.side as usize];
    slot.park();
}

/// The end is closed.
pub(crate) fn close(ends: &mut Vec<Vec<Slot>>, end: EndId)
    requires { IsSome (held_in ends.old.items end) }
    ensures { (h : HeldAt) → held_in ends.old.items end ≡ Some h → Writes ends.old.items end None h.hop
        (record { behind = h.behind; state = rules.Closed }) ends.new.items }
{
    let row = &mut ends[end.sess as usize];
    let slot = &mut row[end.side as usize];
    slot.close();
}

/// The end takes its next message.
pub(crate) fn take_first(ends: &mut Vec<Vec<Slot>>, end: EndId) -> Sent
    requires { has_message (held_in ends.old.items end) ≡ true }
    ensures takes { (h : HeldAt) → held_in ends.old.items end ≡ Some h →
        TakesFrom ends.old.items end h (sent_at result) ends.new.items }
    ensures places { KeepsPlaces ends.old.items ends.new.items }
{
    let row = &mut ends[end.sess as usize];
    let slot = &mut row[end.side as usize];
    slot.take_first()
}

/// Stores a message after those that are stored at the record.
pub(crate) fn store(
    ends: &mut Vec<Vec<Slot>>,
    end: EndId,
    hop: usize,
    sent: Sent,
) -> Result<(), NoMemory>
    requires { is_storing (records_in ends.old.items end hop) ≡ true }
    ensures ok { OnOk result ((r : rules.RecordAt) → records_in ends.old.items end hop ≡ Some r →
        Writes ends.old.items end (uses_in ends.old.items end) hop
        (more_stored (sent_at sent) r) ends.new.items) }
    ensures err { OnErr result (EndsStay ends.old.items ends.new.items) }
{
    let row = &mut ends[end.sess as usize];
    let slot = &mut row[end.side as usize];
    slot.store(hop, sent)
}

/// What waits at the record, which passes on to that party from now on.
pub(crate) fn pass_on(ends: &mut Vec<Vec<Slot>>, end: EndId, hop: usize, to: u16) -> VecDeque<Sent>
    requires { has_waiting (records_in ends.old.items end hop) ≡ true }
    ensures waited { (r : rules.RecordAt) → records_in ends.old.items end hop ≡ Some r →
        r.state ≡ rules.Parked (map sent_at result.items) }
    ensures passes { (r : rules.RecordAt) → records_in ends.old.items end hop ≡ Some r →
        Writes ends.old.items end (uses_in ends.old.items end) hop
        (record { behind = r.behind; state = rules.Passing to }) ends.new.items }
{
    let row = &mut ends[end.sess as usize];
    let slot = &mut row[end.side as usize];
    slot.pass_on(hop, to)
}

// Takes the memory for the slot of the end.
fn make_slot(alloc: Global, ends: &mut Vec<Vec<Slot>>, end: EndId) -> Result<(), NoMemory>
    ensures same { EndsStay ends.old.items ends.new.items }
    ensures there { OnOk result (IsSome (slot_in ends.new.items end)) }
{
    while ends.len() <= end.sess as usize {
        ends.push(Vec::new(alloc))?;
    }
    let row = &mut ends[end.sess as usize];
    make_side(alloc, row, end.side)
}

fn make_side(alloc: Global, row: &mut Vec<Slot>, side: u8) -> Result<(), NoMemory>
    ensures same { (k : ℕ) → SideStays (slice_get row.old.items k) (slice_get row.new.items k) }
    ensures there { OnOk result (side < vec_len row.new) }
{
    while row.len() <= side as usize {
        row.push(Slot::new(alloc))?;
    }
    Ok(())
}
