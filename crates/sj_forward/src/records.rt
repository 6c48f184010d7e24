//! Records of an end, and what is done to one.
ghost use Rattle.std.specs.Prelude.{◌≡◌, ℕ, Some, OnErr, OnOk, IsSome, map, option_map, true};
ghost use Rattle.sj_forward.specs.Ends.{LeavesFirst, has_waiting, is_storing, more_stored};
ghost use Rattle.sj_forward.specs.Views.{record_at, seen_of, sent_at, stand_at, use_of};
ghost use Rattle.sj_forward_rules.specs.Node.{HeldAt, held_at, held_in};
ghost use Rattle.sj_forward_rules.specs.Ready.{has_message};
ghost use Rattle.sj_forward_rules.specs.Record as rules;

use crate::frame::Sent;
use sj_base::NoMemory;
use std::collections::VecDeque;

/// How an end stands at one of its records.
#[derive(Drop)]
pub enum Stand {
    /// In use, with what came and wasn't taken.
    Held(VecDeque<Sent>),
    /// Delegated, with what came since and what wasn't taken.
    Parked(VecDeque<Sent>),
    /// Passed on to the party.
    Passing(u16),
    Closed,
}

/// A record of an end. What is sent on the end goes from here to the party after.
#[derive(Drop)]
pub struct Record {
    pub behind: u16,
    pub stand: Stand,
}

/// An end in use: the hop number of its record, the party after, and the next message.
#[derive(Clone, Copy)]
pub struct Use {
    pub hop: usize,
    pub behind: u16,
    pub first: Option<Sent>,
}

/// What kind of record it is. A parked one has so many messages.
#[derive(Clone, Copy)]
pub enum Kind {
    Held,
    Parked(usize),
    Passing(u16),
    Closed,
}

/// A record: the party after, and of what kind it is.
#[derive(Clone, Copy)]
pub struct Seen {
    pub behind: u16,
    pub kind: Kind,
}

/// Of what kind a stand is.
pub(crate) fn kind_of(stand: &Stand) -> Kind
    ensures { (behind : ℕ) → seen_of (record_at (record { behind = behind; stand = stand.now }))
        ≡ record { behind = behind; kind = result } }
{
    match stand {
        Stand::Held(_) => Kind::Held,
        Stand::Parked(waiting) => Kind::Parked(waiting.len()),
        Stand::Passing(party) => Kind::Passing(*party),
        Stand::Closed => Kind::Closed,
    }
}

/// The end where its record is in use.
pub(crate) fn use_of_record(hop: usize, kept: &Record) -> Option<Use>
    ensures { result ≡ option_map use_of (held_at hop (Some (record_at kept.now))) }
{
    match &kept.stand {
        Stand::Held(untaken) => Some(Use {
            hop,
            behind: kept.behind,
            first: untaken.front().copied(),
        }),
        Stand::Parked(_) => None,
        Stand::Passing(_) => None,
        Stand::Closed => None,
    }
}

/// The record in use is parked, with what wasn't taken.
pub(crate) fn park_record(place: &mut Option<Record>)
    requires { IsSome (held_at 0 (option_map record_at place.old)) }
    ensures { (hop : ℕ) (h : HeldAt) → held_at hop (option_map record_at place.old) ≡ Some h →
        option_map record_at place.new
        ≡ Some (record { behind = h.behind; state = rules.Parked h.untaken }) }
{
    match place.take() {
        Some(
            Record {
                behind,
                stand: Stand::Held(untaken),
            },
        ) => {
            *place = Some(Record {
                behind,
                stand: Stand::Parked(untaken),
            })
        }
        _ => unreachable!(),
    }
}

/// The record in use is closed.
pub(crate) fn close_record(place: &mut Option<Record>)
    requires { IsSome (held_at 0 (option_map record_at place.old)) }
    ensures { (hop : ℕ) (h : HeldAt) → held_at hop (option_map record_at place.old) ≡ Some h →
        option_map record_at place.new ≡ Some (record { behind = h.behind; state = rules.Closed }) }
{
    match place {
        Some(kept) => kept.stand = Stand::Closed,
        None => unreachable!(),
    }
}

/// Takes the next message of the record in use.
pub(crate) fn take_from_record(place: &mut Option<Record>) -> Sent
    requires { has_message (held_at 0 (option_map record_at place.old)) ≡ true }
    ensures { (hop : ℕ) (h : HeldAt) → held_at hop (option_map record_at place.old) ≡ Some h →
        LeavesFirst h (sent_at result) (option_map record_at place.new) }
{
    match place {
        Some(kept) => take_from_stand(&mut kept.stand),
        None => unreachable!(),
    }
}

fn take_from_stand(stand: &mut Stand) -> Sent
    requires { has_message (held_in 0 0 (stand_at stand.old)) ≡ true }
    ensures { (hop behind : ℕ) (h : HeldAt) → held_in hop behind (stand_at stand.old) ≡ Some h →
        LeavesFirst h (sent_at result) (Some (record { behind = behind; state = stand_at stand.new })) }
{
    match stand {
        Stand::Held(untaken) => match untaken.pop_front() {
            Some(sent) => sent,
            None => unreachable!(),
        },
        Stand::Parked(_) => unreachable!(),
        Stand::Passing(_) => unreachable!(),
        Stand::Closed => unreachable!(),
    }
}

/// Stores a message after those of a record that stores.
pub(crate) fn store_in_record(place: &mut Option<Record>, sent: Sent) -> Result<(), NoMemory>
    requires { is_storing (option_map record_at place.old) ≡ true }
    ensures ok { OnOk result (option_map record_at place.new
        ≡ option_map (more_stored (sent_at sent)) (option_map record_at place.old)) }
    ensures err { OnErr result (option_map record_at place.new ≡ option_map record_at place.old) }
{
    match place {
        Some(
            Record {
                stand: Stand::Held(stored),
                ..
            },
        ) => {
            stored.reserve(1)?;
            stored.push_back_reserved(sent);
            Ok(())
        }
        Some(
            Record {
                stand: Stand::Parked(stored),
                ..
            },
        ) => {
            stored.reserve(1)?;
            stored.push_back_reserved(sent);
            Ok(())
        }
        _ => unreachable!(),
    }
}

/// What waited at a parked record, which passes on to that party from now on.
pub(crate) fn pass_record(place: &mut Option<Record>, to: u16) -> VecDeque<Sent>
    requires { has_waiting (option_map record_at place.old) ≡ true }
    ensures waited { (r : rules.RecordAt) → option_map record_at place.old ≡ Some r →
        r.state ≡ rules.Parked (map sent_at result.items) }
    ensures passes { (r : rules.RecordAt) → option_map record_at place.old ≡ Some r →
        option_map record_at place.new
        ≡ Some (record { behind = r.behind; state = rules.Passing to }) }
{
    match place.take() {
        Some(
            Record {
                behind,
                stand: Stand::Parked(waiting),
            },
        ) => {
            *place = Some(Record {
                behind,
                stand: Stand::Passing(to),
            });
            waiting
        }
        _ => unreachable!(),
    }
}
