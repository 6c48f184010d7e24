//! Old records of ends that the party sent on.
ghost use Rattle.std.specs.Prelude.{◌≡◌, ◌+◌, ◌<◌, ◌≤◌, ◌^◌, ℕ, Some, None, IsSome, IfSome, IfNone, IfOk};
ghost use Rattle.std.specs.Prelude.{OnErr, IsErrOf, map, max, option_map, vec_len};
ghost use Rattle.sj_end.specs.Views.{post_at};
ghost use Rattle.sj_node.specs.Keeping.{AckFits, Claims, CrossFits, LacksPass, Passes, PassesFrom, cached_old};
ghost use Rattle.sj_node.specs.Keeping.{kept_of, parked_of, parked_peer, signalled_of};
ghost use Rattle.sj_node.specs.Passing.{GoTo};
ghost use Rattle.sj_node.specs.Slots.{old_at, olds_in};
ghost use Rattle.sj_rules.specs.Node.{NodeAt, comes, put, with_number};
ghost use Rattle.sj_rules.specs.Record as rules;
ghost use Rattle.sj_semantics.specs.Program.{Program};
ghost use Rattle.sj_table.specs.declared.table.Spot.{Spot};

use crate::DeliverRefusal;
use crate::signals::{pass_parked, signal_fits};
use crate::slots::{Old, slot_of};
use sj_base::EndId;
use sj_end::{MAX_CONN, Parked, Post, Signalled};
use sj_handover::signal;
use std::alloc::Global;

/// The party to which the frames of a parked end go.
pub(crate) fn parked_peer(olds: &[Option<Old>], end: EndId) -> Option<u16>
    ensures { result ≡ parked_peer (olds_in olds.now end) }
{
    let at = slot_of(end, olds.len())?;
    match &olds[at] {
        Some(Old::Parked(parked)) => Some(parked.end.peer),
        _ => None,
    }
}

/// A parked end was claimed by that party. Answers what goes to its peer.
pub(crate) fn claimed(olds: &mut Vec<Option<Old>>, end: EndId, by: u16) -> Post
    requires { IsSome (parked_of (olds_in olds.old.items end)) }
    ensures { Claims end by (olds_in olds.old.items) (olds_in olds.new.items) (post_at result) }
{
    let Some(at) = slot_of(end, olds.len()) else {
        unreachable!()
    };
    let slot = &mut olds[at];
    let parked = parked_out(slot);
    let (signalled, post) = signal(parked, by);
    *slot = Some(Old::Signalled(signalled));
    post
}

fn parked_out(slot: &mut Option<Old>) -> Parked
    requires { IsSome (parked_of (option_map old_at slot.old)) }
    ensures { option_map old_at slot.old ≡ Some (rules.Parked result.end.value) }
{
    match slot.take() {
        Some(Old::Parked(parked)) => parked,
        _ => unreachable!(),
    }
}

/// Takes the record of a signalled end out of its slot.
pub(crate) fn signalled_out(olds: &mut Vec<Option<Old>>, end: EndId) -> Signalled
    requires { IsSome (signalled_of (olds_in olds.old.items end)) }
    ensures out { olds_in olds.old.items end ≡ Some (rules.Signalled result.end.value result.to) }
    ensures puts { olds_in olds.new.items ≡ put end None (olds_in olds.old.items) }
{
    let Some(at) = slot_of(end, olds.len()) else {
        unreachable!()
    };
    let slot = &mut olds[at];
    signalled_from(slot)
}

fn signalled_from(slot: &mut Option<Old>) -> Signalled
    requires { IsSome (signalled_of (option_map old_at slot.old)) }
    ensures out { option_map old_at slot.old ≡ Some (rules.Signalled result.end.value result.to) }
    ensures none { option_map old_at slot.new ≡ None }
{
    match slot.take() {
        Some(Old::Signalled(signalled)) => signalled,
        _ => unreachable!(),
    }
}

/// The party to which a signalled end goes, where that Ack from that party fits.
pub(crate) fn acked_to(olds: &[Option<Old>], from: u16, of: EndId, conn: u32) -> Option<u16>
    ensures some { IfSome result (λ to. AckFits from conn to (olds_in olds.now of)) }
    ensures none { IfNone result ((n : NodeAt Spot Program) → n.old ≡ olds_in olds.now →
        comes max n from (rules.Ack of conn) ≡ None) }
{
    let at = slot_of(of, olds.len())?;
    match &olds[at] {
        Some(Old::Signalled(signalled)) => {
            let end = &signalled.end;
            if conn == end.conn && conn < MAX_CONN && from == end.peer {
                Some(signalled.to)
            } else {
                None
            }
        }
        _ => None,
    }
}

/// What an old record is.
pub(crate) enum OldKind {
    Nothing,
    Parked,
    Signalled,
}

/// Which old record of the end has that connection number.
pub(crate) fn kept_at(olds: &[Option<Old>], end: EndId, conn: u32) -> OldKind
    ensures { result ≡ kept_of (with_number conn (olds_in olds.now end)) }
{
    let Some(at) = slot_of(end, olds.len()) else {
        return OldKind::Nothing;
    };
    match &olds[at] {
        Some(Old::Parked(parked)) => {
            if parked.end.conn == conn {
                OldKind::Parked
            } else {
                OldKind::Nothing
            }
        }
        Some(Old::Signalled(signalled)) => {
            if signalled.end.conn == conn {
                OldKind::Signalled
            } else {
                OldKind::Nothing
            }
        }
        None => OldKind::Nothing,
    }
}

/// The party to which a signalled end goes, where that Signal from that party crosses its own.
pub(crate) fn crossed_to(
    olds: &[Option<Old>],
    from: u16,
    to: EndId,
    conn: u32,
    taken: u32,
) -> Option<u16>
    requires { kept_of (with_number conn (olds_in olds.now to)) ≡ OldKind.Signalled }
    ensures some { IfSome result (λ t. CrossFits from conn taken t (olds_in olds.now to)) }
    ensures none { IfNone result ((n : NodeAt Spot Program) (party : ℕ) → n.old ≡ olds_in olds.now →
        comes max n from (rules.Signal to conn party taken) ≡ None) }
{
    let at = slot_of(to, olds.len())?;
    match &olds[at] {
        Some(Old::Signalled(signalled)) => {
            if signal_fits(&signalled.end, from, conn, taken) {
                Some(signalled.to)
            } else {
                None
            }
        }
        _ => None,
    }
}

/// A Signal comes to a parked end. Answers what is sent.
pub(crate) fn signal_to_parked(
    alloc: Global,
    olds: &mut Vec<Option<Old>>,
    from: u16,
    to: EndId,
    conn: u32,
    party: u16,
    taken: u32,
) -> Result<Vec<Post>, DeliverRefusal>
    requires { IsSome (parked_of (olds_in olds.old.items to)) }
    ensures ok { IfOk result (λ r. Passes from to conn party taken (olds_in olds.old.items)
        (olds_in olds.new.items) (map post_at r.items)) }
    ensures goes { IfOk result (λ r. GoTo from party r.items) }
    ensures count { IfOk result (λ r. vec_len r ≤ cached_old (olds_in olds.old.items to) + 2) }
    ensures unfit { IsErrOf result DeliverRefusal.Unfit →
        LacksPass from conn party taken (olds_in olds.old.items to) }
    ensures err { OnErr result (olds_in olds.new.items ≡ olds_in olds.old.items) }
{
    let Some(at) = slot_of(to, olds.len()) else {
        unreachable!()
    };
    let slot = &mut olds[at];
    pass_slot(alloc, slot, from, conn, party, taken)
}

fn pass_slot(
    alloc: Global,
    slot: &mut Option<Old>,
    from: u16,
    conn: u32,
    party: u16,
    taken: u32,
) -> Result<Vec<Post>, DeliverRefusal>
    requires { IsSome (parked_of (option_map old_at slot.old)) }
    ensures ok { IfOk result (λ r. PassesFrom from conn party taken (option_map old_at slot.old)
        (option_map old_at slot.new) (map post_at r.items)) }
    ensures goes { IfOk result (λ r. GoTo from party r.items) }
    ensures count { IfOk result (λ r. vec_len r ≤ cached_old (option_map old_at slot.old) + 2) }
    ensures unfit { IsErrOf result DeliverRefusal.Unfit →
        LacksPass from conn party taken (option_map old_at slot.old) }
    ensures err { OnErr result (option_map old_at slot.new ≡ option_map old_at slot.old) }
{
    let parked = parked_out(slot);
    match pass_parked(alloc, parked, from, conn, party, taken) {
        Ok((parked, posts)) => {
            *slot = Some(Old::Parked(parked));
            Ok(posts)
        }
        Err((parked, refusal)) => {
            *slot = Some(Old::Parked(parked));
            Err(refusal)
        }
    }
}

/// How many messages the old record of the end has cached.
pub(crate) fn cached_old_at(olds: &[Option<Old>], end: EndId) -> usize
    ensures count { result ≡ cached_old (olds_in olds.now end) }
    ensures small { result < 2 ^ 63 }
{
    match slot_of(end, olds.len()) {
        Some(at) => match &olds[at] {
            Some(Old::Parked(parked)) => parked.end.cache.len(),
            Some(Old::Signalled(signalled)) => signalled.end.cache.len(),
            None => 0,
        },
        None => 0,
    }
}
