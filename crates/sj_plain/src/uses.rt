//! Uses of the ends of sessions, by the ends' names. Up to a session of which an end is used there
//! are sessions then. Without memory all is as it was.
ghost use Rattle.std.specs.Prelude.{◌≡◌, ◌<◌, ◌∷◌, [], ℕ, length, take, OnErr, OnOk};
ghost use Rattle.sj_plain.specs.Ends.{ahead_of};
ghost use Rattle.sj_plain.specs.Stepping.{reached, sessions_at};
ghost use Rattle.sj_semantics.specs.Ends.{end_at, next_for, limit_of_hops};
ghost use Rattle.sj_semantics.specs.Uses.{after_uses, altered_list, begins, delegates, end_after, on_side, sends, takes};
ghost use Rattle.sj_semantics.specs.World.{session_message};
ghost use Rattle.sj_table.specs.declared.table.Table.{Table};

use crate::ahead::Ahead;
use crate::ends::Session;
use sj_base::{EndId, Msg, NoMemory};
use sj_semantics::Passed;
use sj_table::Table;
use std::alloc::Global;

/// Of what the other end sent, the first that the end hasn't taken.
pub fn next_message(sessions: &[Session], end: EndId) -> Option<Passed>
    ensures { (t : Table) → result ≡ next_for (sessions_at t sessions.now) end }
{
    match sessions.get(end.sess as usize) {
        Some(session) => session.untaken(end.side),
        None => None,
    }
}

/// How often the end was delegated.
pub fn hops(sessions: &[Session], end: EndId) -> u8
    ensures { (t : Table) → result ≡ (end_at (sessions_at t sessions.now) end).hops }
{
    match sessions.get(end.sess as usize) {
        Some(session) => session.hops(end.side),
        None => 0,
    }
}

/// Puts sessions that aren't opened after the others, until that number is reached.
pub fn reach(
    alloc: Global,
    table: &Table,
    sessions: &mut Vec<Session>,
    number: u32,
) -> Result<(), NoMemory>
    ensures ok { OnOk result (sessions_at table.now sessions.new.items
        ≡ reached (sessions_at table.now sessions.old.items) number) }
    ensures there { OnOk result (number < length sessions.new.items) }
    ensures front { OnOk result (take (length sessions.old.items) sessions.new.items
        ≡ sessions.old.items) }
    ensures err { OnErr result (sessions.new.items ≡ sessions.old.items) }
{
    let before = sessions.len();
    while sessions.len() <= number as usize {
        if sessions.push(Session::unopened(alloc, table)).is_err() {
            sessions.truncate(before);
            return Err(NoMemory);
        }
    }
    Ok(())
}

/// Reaches the one number and then the other.
fn reach_both(
    alloc: Global,
    table: &Table,
    sessions: &mut Vec<Session>,
    first: u32,
    second: u32,
) -> Result<(), NoMemory>
    ensures ok { OnOk result (sessions_at table.now sessions.new.items
        ≡ reached (reached (sessions_at table.now sessions.old.items) first) second) }
    ensures first { OnOk result (first < length sessions.new.items) }
    ensures second { OnOk result (second < length sessions.new.items) }
    ensures front { OnOk result (take (length sessions.old.items) sessions.new.items
        ≡ sessions.old.items) }
    ensures err { OnErr result (sessions.new.items ≡ sessions.old.items) }
{
    let before = sessions.len();
    reach(alloc, table, sessions, first)?;
    if let Err(error) = reach(alloc, table, sessions, second) {
        sessions.truncate(before);
        return Err(error);
    }
    Ok(())
}

/// The party sends the message on the end, whose session is there.
fn send_there(
    alloc: Global,
    table: &Table,
    sessions: &mut Vec<Session>,
    end: EndId,
    passed: Passed,
) -> Result<(), NoMemory>
    requires { end.sess < length sessions.old.items }
    ensures ok { OnOk result (sessions_at table.now sessions.new.items
        ≡ altered_list (sessions_at table.now sessions.old.items) end.sess
        (on_side end.side (end_after passed.by (sends passed.msg)))) }
    ensures err { OnErr result (sessions_at table.now sessions.new.items ≡ sessions_at table.now sessions.old.items) }
{
    let session = &mut sessions[end.sess as usize];
    session.send(alloc, table, end.side, passed)
}

/// The party takes the message from the end, whose session is there.
fn take_there(
    alloc: Global,
    table: &Table,
    sessions: &mut Vec<Session>,
    end: EndId,
    party: u16,
    msg: &Msg,
) -> Result<(), NoMemory>
    requires { end.sess < length sessions.old.items }
    ensures ok { OnOk result (sessions_at table.now sessions.new.items
        ≡ altered_list (sessions_at table.now sessions.old.items) end.sess
        (on_side end.side (end_after party (takes msg.now)))) }
    ensures err { OnErr result (sessions_at table.now sessions.new.items ≡ sessions_at table.now sessions.old.items) }
{
    let session = &mut sessions[end.sess as usize];
    session.take(alloc, table, end.side, party, msg)
}

/// The end, whose session is there, is delegated.
fn hand_on(sessions: &mut Vec<Session>, end: EndId)
    requires there { end.sess < length sessions.old.items }
    requires few { (t : Table) → (end_at (sessions_at t sessions.old.items) end).hops < limit_of_hops }
    ensures { (t : Table) (party : ℕ) → sessions_at t sessions.new.items
        ≡ altered_list (sessions_at t sessions.old.items) end.sess
        (on_side end.side (end_after party delegates)) }
{
    let session = &mut sessions[end.sess as usize];
    session.hand_on(end.side);
}

/// The end, whose session is there, begins at the place.
pub fn begin(sessions: &mut Vec<Session>, end: EndId, place: Ahead)
    requires { end.sess < length sessions.old.items }
    ensures there { length sessions.new.items ≡ length sessions.old.items }
    ensures begun { (t : Table) (party : ℕ) → sessions_at t sessions.new.items
        ≡ altered_list (sessions_at t sessions.old.items) end.sess
        (on_side end.side (end_after party (begins (ahead_of t place)))) }
{
    let session = &mut sessions[end.sess as usize];
    session.begin(end.side, place);
}

/// The party sends the message on the end.
pub fn send_on(
    alloc: Global,
    table: &Table,
    sessions: &mut Vec<Session>,
    end: EndId,
    passed: Passed,
) -> Result<(), NoMemory>
    ensures ok { OnOk result (sessions_at table.now sessions.new.items
        ≡ after_uses passed.by ((end, sends passed.msg) ∷ []) (sessions_at table.now sessions.old.items)) }
    ensures err { OnErr result (sessions_at table.now sessions.new.items ≡ sessions_at table.now sessions.old.items) }
{
    let before = sessions.len();
    reach(alloc, table, sessions, end.sess)?;
    if let Err(error) = send_there(alloc, table, sessions, end, passed) {
        sessions.truncate(before);
        return Err(error);
    }
    Ok(())
}

/// The party takes the message from the end.
pub fn take_on(
    alloc: Global,
    table: &Table,
    sessions: &mut Vec<Session>,
    end: EndId,
    party: u16,
    msg: &Msg,
) -> Result<(), NoMemory>
    ensures ok { OnOk result (sessions_at table.now sessions.new.items
        ≡ after_uses party ((end, takes msg.now) ∷ []) (sessions_at table.now sessions.old.items)) }
    ensures err { OnErr result (sessions_at table.now sessions.new.items ≡ sessions_at table.now sessions.old.items) }
{
    let before = sessions.len();
    reach(alloc, table, sessions, end.sess)?;
    if let Err(error) = take_there(alloc, table, sessions, end, party, msg) {
        sessions.truncate(before);
        return Err(error);
    }
    Ok(())
}

/// The party takes the message, which is another end, from the end; the taken one begins at the
/// place.
pub fn take_end_on(
    alloc: Global,
    table: &Table,
    sessions: &mut Vec<Session>,
    end: EndId,
    party: u16,
    msg: &Msg,
    taken: EndId,
    place: Ahead,
) -> Result<(), NoMemory>
    ensures ok { OnOk result (sessions_at table.now sessions.new.items
        ≡ after_uses party ((end, takes msg.now) ∷ (taken, begins (ahead_of table.now place)) ∷ [])
        (sessions_at table.now sessions.old.items)) }
    ensures err { OnErr result (sessions_at table.now sessions.new.items ≡ sessions_at table.now sessions.old.items) }
{
    let before = sessions.len();
    reach_both(alloc, table, sessions, end.sess, taken.sess)?;
    if let Err(error) = take_there(alloc, table, sessions, end, party, msg) {
        sessions.truncate(before);
        return Err(error);
    }
    begin(sessions, taken, place);
    Ok(())
}

/// The party delegates an end, by a message on the carrier.
pub fn delegate_on(
    alloc: Global,
    table: &Table,
    sessions: &mut Vec<Session>,
    carrier: EndId,
    end: EndId,
    party: u16,
) -> Result<(), NoMemory>
    requires { (end_at (sessions_at table.now sessions.old.items) end).hops < limit_of_hops }
    ensures ok { OnOk result (sessions_at table.now sessions.new.items
        ≡ after_uses party ((end, delegates) ∷ (carrier, sends (session_message end party)) ∷ [])
        (sessions_at table.now sessions.old.items)) }
    ensures err { OnErr result (sessions_at table.now sessions.new.items ≡ sessions_at table.now sessions.old.items) }
{
    let msg = Msg::Sess {
        sess: end.sess,
        side: end.side,
        keeper: party,
    };
    let before = sessions.len();
    reach_both(alloc, table, sessions, end.sess, carrier.sess)?;
    if let Err(error) = send_there(alloc, table, sessions, carrier, Passed { msg, by: party }) {
        sessions.truncate(before);
        return Err(error);
    }
    hand_on(sessions, end);
    Ok(())
}
