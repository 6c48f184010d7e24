//! What the place of an end begins with.
ghost use Rattle.std.specs.Prelude.{◌≡◌, IfOk, None, Some, false, true};
ghost use Rattle.std.specs.Option.{option_copied};
ghost use Rattle.std.specs.Prelude.{unwrap_or};
ghost use Rattle.sj_lang.specs.Place.{done};
ghost use Rattle.sj_lang.specs.MeetTests.{stands_for as stands_by};
ghost use Rattle.sj_lang.specs.View.{carried_of, place_of};
ghost use Rattle.sj_plain.specs.Stepping.{sessions_at};
ghost use Rattle.sj_semantics.specs.Ends.{end_at};
ghost use Rattle.sj_talk.specs.Play.{value_at};
ghost use Rattle.sj_talk.specs.Rules.{carried_next, is_done, is_next, is_scalar, offers, selects};
ghost use Rattle.sj_talk.specs.Rules.{sends_end, sends_value, takes_end, takes_no_end, turns};

use crate::form::Value;
use sj_base::{EndId, NoMemory};
use sj_lang::{Item, Kind, Proto, arm_named, stands_for};
use sj_plain::Session;
use sj_table::Table;
use std::alloc::Global;

/// A copy of the place of the end; the empty place where there are no sessions up to its own.
pub fn place(
    alloc: Global,
    table: &Table,
    sessions: &[Session],
    end: EndId,
) -> Result<Proto, NoMemory>
    ensures { IfOk result (λ p. p ≡ (end_at (sessions_at table.now sessions.now) end).place) }
{
    match sessions.get(end.sess as usize) {
        Some(session) => session.place(alloc, table, end.side),
        None => {
            let items = Vec::new(alloc);
            Ok(Proto { items })
        }
    }
}

fn is_scalar(kind: &Kind) -> bool
    ensures { result ≡ is_scalar (carried_of kind.now) }
{
    !matches!(kind, Kind::Session(_))
}

/// Whether a value is sent first.
pub fn sends_value(items: &[Item]) -> bool
    ensures { result ≡ sends_value (place_of items.now) }
{
    match items.first() {
        Some(Item::Send(kind)) => is_scalar(kind),
        _ => false,
    }
}

/// Whether an end is sent first.
pub fn sends_end(items: &[Item]) -> bool
    ensures { result ≡ sends_end (place_of items.now) }
{
    matches!(items.first(), Some(Item::Send(Kind::Session(_))))
}

/// Whether a selection is first.
pub fn selects(items: &[Item]) -> bool
    ensures { result ≡ selects (place_of items.now) }
{
    matches!(items.first(), Some(Item::Select(_)))
}

/// Whether an outward loop is first.
pub fn turns(items: &[Item]) -> bool
    ensures { result ≡ turns (place_of items.now) }
{
    matches!(items.first(), Some(Item::OutLoop(_)))
}

/// Whether a value is taken first, or a branching or an inward loop is first.
pub fn takes_no_end(items: &[Item]) -> bool
    ensures { result ≡ takes_no_end (place_of items.now) }
{
    match items.first() {
        Some(Item::Recv(kind)) => is_scalar(kind),
        Some(Item::Branch(_)) => true,
        Some(Item::InLoop(_)) => true,
        _ => false,
    }
}

/// Whether an end is taken first.
pub fn takes_end(items: &[Item]) -> bool
    ensures { result ≡ takes_end (place_of items.now) }
{
    matches!(items.first(), Some(Item::Recv(Kind::Session(_))))
}

/// Whether nothing is ahead.
pub fn is_done(items: &[Item]) -> bool
    ensures { result ≡ is_done (place_of items.now) }
{
    items.is_empty()
}

/// Whether the value is of the kind that is first.
pub fn is_next(items: &[Item], value: &Value<'_>) -> bool
    ensures { result ≡ is_next (place_of items.now) (value_at value.now) }
{
    let (Some(Item::Send(kind)) | Some(Item::Recv(kind))) = items.first() else {
        return false;
    };
    match (kind, value) {
        (Kind::Int, Value::Int(_)) => true,
        (Kind::Boolean, Value::Bool(_)) => true,
        (Kind::Text, Value::Text(_)) => true,
        _ => false,
    }
}

/// Whether the label is one of the choice that is first.
pub fn offers(items: &[Item], label: Option<u16>) -> bool
    ensures { result ≡ offers (place_of items.now) label }
{
    let (Some(Item::Select(choice)) | Some(Item::Branch(choice))) = items.first() else {
        return false;
    };
    match label {
        Some(label) => arm_named(choice, label).is_some(),
        None => false,
    }
}

/// The place of the ends that are sent or taken first.
pub fn carried_next(items: &[Item]) -> Option<&Proto>
    ensures { carried_next (place_of items.now) ≡ unwrap_or (option_copied result) done }
{
    match items.first() {
        Some(Item::Send(Kind::Session(place))) => Some(place),
        Some(Item::Recv(Kind::Session(place))) => Some(place),
        _ => None,
    }
}

// Whether an end at the one place can stand where one at the other is wanted.
fn stands_in(own: &Proto, wanted: &Proto) -> bool
    ensures { result ≡ stands_by own.now wanted.now }
{
    stands_for(own, wanted)
}

/// Whether an end at the one place can stand where one at the other is wanted; a wanted place that
/// isn't there is empty.
pub fn stands(alloc: Global, own: &Proto, wanted: Option<&Proto>) -> bool
    ensures { result ≡ stands_by own.now (unwrap_or (option_copied wanted.entry) done) }
{
    match wanted {
        Some(wanted) => stands_in(own, wanted),
        None => {
            let items = Vec::new(alloc);
            stands_in(own, &Proto { items })
        }
    }
}
