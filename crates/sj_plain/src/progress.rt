//! How a party stands, and what its next step does.
ghost use Rattle.std.specs.Prelude.{◌≡◌, ◌<◌, ◌∷◌, [], ℕ, List, Some, true, length, unwrap_or, OnErr, OnOk};
ghost use Rattle.sj_lang.specs.FileAt.{ProtocolAt};
ghost use Rattle.sj_machine.specs.Opens.{is_opening};
ghost use Rattle.sj_machine.specs.Sound.{program_at};
ghost use Rattle.sj_plain.specs.Ends.{protocols_in};
ghost use Rattle.sj_plain.specs.Opened.{AreInOrder, IsInOrder, requests_in, world_with};
ghost use Rattle.sj_plain.specs.Stepping.{Makes, next_move, sessions_at, world_around};
ghost use Rattle.sj_semantics.specs.Ends.{next_for};
ghost use Rattle.sj_semantics.specs.Program.{Program, limit_of_steps};
ghost use Rattle.sj_semantics.specs.Requests.{first_offer, limit_of_requests, opened_number};
ghost use Rattle.sj_semantics.specs.State.{state_by, state_of_program, state_wanting};
ghost use Rattle.sj_semantics.specs.Steps.{took_of};
ghost use Rattle.sj_semantics.specs.Uses.{after_uses, takes};
ghost use Rattle.sj_semantics.specs.Wants.{want_of};
ghost use Rattle.sj_semantics.specs.World.{begun_at, change_by_accepting, change_by_opening};
ghost use Rattle.sj_semantics.specs.declared.Passed.{Passed};
ghost use Rattle.sj_semantics.specs.declared.State.TheVariants.{Ready};
ghost use Rattle.sj_semantics.specs.declared.Want.TheVariants.{Ended};
ghost use Rattle.sj_table.specs.Spots.{place_in};
ghost use Rattle.sj_table.specs.declared.table.Table.{Table};

use crate::ahead::Ahead;
use crate::ends::Session;
use crate::sessions::{accept, add, offer, requests_of, session_number};
use crate::uses::{begin, delegate_on, hops, next_message, reach, send_on, take_end_on, take_on};
use sj_base::{EndId, Msg, NoMemory};
use sj_machine::{MAX_HOPS, MAX_REQUESTS, MAX_STEPS, Machine, opened_number};
use sj_semantics::{Awaits, Limit, Opened, Passed, State, Want};
use sj_table::{Spot, Table};
use std::alloc::Global;

/// How a party stands that hasn't ended and isn't at the limit of steps.
fn state_by(sessions: &[Session], opened: &[Opened], party: u16, want: &Want) -> State
    requires order { AreInOrder party opened.now }
    ensures { (t : Table) (ps : List ProtocolAt) (gs : List Program) →
        result ≡ state_by (world_with ps gs (sessions_at t sessions.now) opened.now) party want.now }
{
    match *want {
        Want::Ended => State::Ended,
        Want::Delegate { sent, .. } => {
            if hops(sessions, sent) < MAX_HOPS {
                State::Ready
            } else {
                State::AtLimit(Limit::Hops(sent))
            }
        }
        Want::Take { end, .. } => {
            if next_message(sessions, end).is_some() {
                State::Ready
            } else {
                State::Waits(end)
            }
        }
        Want::Request { .. } => {
            if requests_of(opened, party) < MAX_REQUESTS as usize {
                State::Ready
            } else {
                State::AtLimit(Limit::Requests)
            }
        }
        Want::Accept { from, .. } => {
            if offer(opened, from, party).is_some() {
                State::Ready
            } else {
                State::WaitsOpen(from)
            }
        }
        _ => State::Ready,
    }
}

/// How a party stands that has done so many steps and wants that one next.
pub fn state_wanting(
    sessions: &[Session],
    opened: &[Opened],
    party: u16,
    steps: u32,
    want: &Want,
) -> State
    requires order { AreInOrder party opened.now }
    ensures { (t : Table) (ps : List ProtocolAt) (gs : List Program) →
        result ≡ state_wanting (world_with ps gs (sessions_at t sessions.now) opened.now)
        party steps want.now }
{
    match want {
        Want::Ended => State::Ended,
        _ => {
            if steps < MAX_STEPS {
                state_by(sessions, opened, party, want)
            } else {
                State::AtLimit(Limit::Steps)
            }
        }
    }
}

/// Takes the next message from the end, where one is there.
fn take(
    alloc: Global,
    table: &Table,
    sessions: &mut Vec<Session>,
    machine: &mut Machine,
    party: u16,
    end: EndId,
    awaits: Awaits,
) -> Result<(), NoMemory>
    requires { (program_at machine.old).steps < limit_of_steps }
    ensures ok { OnOk result ((x : Passed) → next_for (sessions_at table.now sessions.old.items) end ≡ Some x →
        (program_at machine.new ≡ took_of (program_at machine.old) x.msg)
        × (sessions_at table.now sessions.new.items ≡ after_uses party
        ((end, takes x.msg) ∷ begun_at (protocols_in table.now) awaits x.msg)
        (sessions_at table.now sessions.old.items))) }
    ensures err { OnErr result (program_at machine.new ≡ program_at machine.old) }
    ensures sessions { OnErr result
        (sessions_at table.now sessions.new.items ≡ sessions_at table.now sessions.old.items) }
{
    if let Some(passed) = next_message(sessions, end) {
        take_message(alloc, table, sessions, party, end, awaits, &passed.msg)?;
        machine.took(passed.msg);
    }
    Ok(())
}

/// The party takes the message from the end. An end that is taken begins at the body of the
/// protocol that the step awaits.
fn take_message(
    alloc: Global,
    table: &Table,
    sessions: &mut Vec<Session>,
    party: u16,
    end: EndId,
    awaits: Awaits,
    msg: &Msg,
) -> Result<(), NoMemory>
    ensures ok { OnOk result (sessions_at table.now sessions.new.items ≡ after_uses party
        ((end, takes msg.now) ∷ begun_at (protocols_in table.now) awaits msg.now)
        (sessions_at table.now sessions.old.items)) }
    ensures err { OnErr result (sessions_at table.now sessions.new.items ≡ sessions_at table.now sessions.old.items) }
{
    match (awaits, *msg) {
        (Awaits::Session(protocol), Msg::Sess { sess, side, .. }) => {
            let place = Ahead::At(table.start(protocol));
            let taken = EndId { sess, side };
            take_end_on(alloc, table, sessions, end, party, msg, taken, place)
        }
        _ => take_on(alloc, table, sessions, end, party, msg),
    }
}

/// Opens a session to the other party. Its first end is bound at the place, its second end waits
/// at the dual place.
fn open_next(
    alloc: Global,
    table: &Table,
    sessions: &mut Vec<Session>,
    opened: &mut Vec<Opened>,
    machine: &mut Machine,
    party: u16,
    to: u16,
    place: Spot,
) -> Result<(), NoMemory>
    requires steps { (program_at machine.old).steps < limit_of_steps }
    requires opens { is_opening (unwrap_or (want_of (program_at machine.old)) Ended) ≡ true }
    requires few { length (requests_in opened.old.items party) < limit_of_requests }
    requires order { AreInOrder party opened.old.items }
    ensures ok { OnOk result (Makes table.now party (change_by_opening (program_at machine.old)
        (opened_number party (length (requests_in opened.old.items party))) (place_in table.now place) to)
        sessions.old.items sessions.new.items opened.old.items opened.new.items
        (program_at machine.new)) }
    ensures order { OnOk result ((n : ℕ) → party < n →
        IsInOrder n opened.old.items → IsInOrder n opened.new.items) }
    ensures err { OnErr result (program_at machine.new ≡ program_at machine.old) }
    ensures sessions { OnErr result
        (sessions_at table.now sessions.new.items ≡ sessions_at table.now sessions.old.items) }
    ensures opened { OnErr result (opened.new.items ≡ opened.old.items) }
{
    let sess = opened_number(party, requests_of(opened, party) as u8);
    let session = Opened {
        sess,
        from: party,
        first: machine.name_opened(),
        to,
        second: None,
    };
    let before = sessions.len();
    reach(alloc, table, sessions, sess)?;
    if let Err(error) = add(opened, session) {
        sessions.truncate(before);
        return Err(error);
    }
    begin(sessions, EndId { sess, side: 0 }, Ahead::At(place));
    begin(sessions, EndId { sess, side: 1 }, Ahead::Against(place));
    machine.opened(EndId { sess, side: 0 });
    Ok(())
}

/// Accepts the first session that the other party opened to this one and that isn't accepted,
/// where there is one. Its second end is bound at the place.
fn accept_next(
    alloc: Global,
    table: &Table,
    sessions: &mut Vec<Session>,
    opened: &mut Vec<Opened>,
    machine: &mut Machine,
    party: u16,
    from: u16,
    place: Spot,
) -> Result<(), NoMemory>
    requires steps { (program_at machine.old).steps < limit_of_steps }
    requires opens { is_opening (unwrap_or (want_of (program_at machine.old)) Ended) ≡ true }
    requires order { AreInOrder party opened.old.items }
    ensures ok { OnOk result ((k : ℕ) →
        first_offer party (requests_in opened.old.items from) ≡ Some k →
        Makes table.now party (change_by_accepting (program_at machine.old) from (place_in table.now place) k)
        sessions.old.items sessions.new.items opened.old.items opened.new.items
        (program_at machine.new)) }
    ensures order { (n : ℕ) → IsInOrder n opened.old.items → IsInOrder n opened.new.items }
    ensures err { OnErr result (program_at machine.new ≡ program_at machine.old) }
    ensures sessions { OnErr result
        (sessions_at table.now sessions.new.items ≡ sessions_at table.now sessions.old.items) }
    ensures opened { OnErr result (opened.new.items ≡ opened.old.items) }
{
    if let Some(number) = offer(opened, from, party) {
        let sess = session_number(opened, from, number);
        reach(alloc, table, sessions, sess)?;
        accept(opened, from, number, machine.name_opened());
        begin(sessions, EndId { sess, side: 1 }, Ahead::At(place));
        machine.opened(EndId { sess, side: 1 });
    }
    Ok(())
}

/// Does the party's next step, which is the one that it wants. Out of memory, it leaves the party,
/// the sessions and those that were opened as they were.
pub fn step(
    alloc: Global,
    table: &Table,
    sessions: &mut Vec<Session>,
    opened: &mut Vec<Opened>,
    machine: &mut Machine,
    party: u16,
    want: &Want,
) -> Result<(), NoMemory>
    requires wants { want.now ≡ unwrap_or (want_of (program_at machine.old)) Ended }
    requires ready { state_of_program
        (world_around table.now sessions.old.items opened.old.items)
        party (program_at machine.old) ≡ Ready }
    requires order { AreInOrder party opened.old.items }
    ensures ok { OnOk result (next_move party
        (world_around table.now sessions.old.items opened.old.items) (program_at machine.old)
        ≡ Some (
          program_at machine.new,
          sessions_at table.now sessions.new.items,
          requests_in opened.new.items,
        )) }
    ensures order { (n : ℕ) → party < n →
        IsInOrder n opened.old.items → IsInOrder n opened.new.items }
    ensures err { OnErr result (program_at machine.new ≡ program_at machine.old) }
    ensures sessions { OnErr result
        (sessions_at table.now sessions.new.items ≡ sessions_at table.now sessions.old.items) }
    ensures opened { OnErr result (opened.new.items ≡ opened.old.items) }
{
    match *want {
        Want::Local => {
            machine.local();
            Ok(())
        }
        Want::Send { end, msg } => {
            send_on(alloc, table, sessions, end, Passed { msg, by: party })?;
            machine.sent();
            Ok(())
        }
        Want::Delegate { end, sent } => {
            delegate_on(alloc, table, sessions, end, sent, party)?;
            machine.sent();
            Ok(())
        }
        Want::Take { end, awaits } => take(alloc, table, sessions, machine, party, end, awaits),
        Want::Close { .. } => {
            machine.closed();
            Ok(())
        }
        Want::Request { protocol, to } => {
            let place = table.start(protocol);
            open_next(alloc, table, sessions, opened, machine, party, to, place)
        }
        Want::Accept { protocol, from } => {
            let place = table.start(protocol);
            accept_next(alloc, table, sessions, opened, machine, party, from, place)
        }
        Want::Ended => Ok(()),
    }
}
