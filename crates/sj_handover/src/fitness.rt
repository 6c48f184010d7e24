//! Whether an end that comes can be installed.
ghost use Rattle.std.specs.Prelude.{◌≡◌, ◌+◌, ◌-◌, ◌≤◌, ◌++◌, ◌∷◌, [], Some, None, List, drop, length, map, max, is_some};
ghost use Rattle.sj_base.specs.declared.EndId.{EndId};
ghost use Rattle.sj_base.specs.declared.Msg.{Msg};
ghost use Rattle.sj_end.specs.Views.{body_at, deferred_at};
ghost use Rattle.sj_handover.specs.Fitting.{FitsAs, end_at_spot};
ghost use Rattle.sj_handover.specs.Installing.{installed_work};
ghost use Rattle.sj_handover.specs.Working.{IsCounted, IsFalseThen, IsTrueThen, held_by, held_at_start};
ghost use Rattle.sj_rules.specs.Record as bodies;
ghost use Rattle.sj_rules.specs.Rows as rules;
ghost use Rattle.sj_rules.specs.Limits.{limit_of_messages};
ghost use Rattle.sj_table.specs.declared.table.Spot.{Spot};

use crate::deferrals::Tally;
use sj_end::{Body, Deferred, End, Expected, MAX_CONN};

/// Whether the end fits the record: the resend is in its cache, and each deferred body fits in
/// its turn.
pub fn fits_install(e: &Expected, end: &End, resend: Option<u32>) -> bool
    requires { end.now.taken ≤ limit_of_messages }
    ensures { result ≡ is_some (installed_work e.now end.now resend) }
{
    if let Some(start) = resend {
        if start < end.base || end.sent < start {
            return false;
        }
    }
    fit_all(end, &e.deferred)
}

// Whether each deferred body fits, in order.
fn fit_all(end: &End, deferred: &[Deferred]) -> bool
    requires { end.now.taken ≤ limit_of_messages }
    ensures { (p : Spot) →
        result ≡ is_some (rules.worked_record max (held_at_start (end_at_spot end.now p)) (map deferred_at deferred.now)) }
{
    let mut tally = Tally {
        conn: end.conn,
        peer: end.peer,
        base: end.base,
        fin: false,
    };
    let mut untaken = 0;
    for frame in deferred {
        if !fit(end, &mut tally, &mut untaken, frame.from, &frame.body) {
            return false;
        }
    }
    true
}

// Whether a deferred body fits, and what it makes of the tally and of the count of untaken
// messages.
fn fit(end: &End, tally: &mut Tally, untaken: &mut usize, from: u16, body: &Body) -> bool
    requires base { end.now.base ≤ tally.old.base }
    requires upto { tally.old.base ≤ end.now.sent }
    requires counted { IsCounted (body_at body.now) }
    requires room { end.now.taken + untaken.old ≤ limit_of_messages + 1 }
    ensures ok { IsTrueThen result ((p : Spot) (ms : List Msg) → length ms ≡ untaken.old →
        FitsAs (end_at_spot end.now p) tally.old tally.new ms untaken.new from (body_at body.now)) }
    ensures unfit { IsFalseThen result ((p : Spot) (ms : List Msg) → length ms ≡ untaken.old →
        rules.at_held max (held_by (end_at_spot end.now p) tally.old ms) from (body_at body.now) ≡ None) }
    ensures base { end.now.base ≤ tally.new.base }
    ensures upto { tally.new.base ≤ end.now.sent }
    ensures room { end.now.taken + untaken.new ≤ limit_of_messages + 1 }
{
    match body {
        Body::Carry {
            conn,
            number,
            taken,
            ..
        } => fit_carry(end, tally, untaken, from, *conn, *number, *taken),
        Body::Fin { conn, number, .. } => fit_fin(end, tally, *untaken, from, *conn, *number),
        Body::Signal {
            conn,
            party,
            taken,
            ..
        } => fit_signal(end, tally, from, *conn, *party, *taken),
        _ => false,
    }
}

fn fit_carry(
    end: &End,
    tally: &mut Tally,
    untaken: &mut usize,
    from: u16,
    conn: u32,
    number: u32,
    taken: u32,
) -> bool
    requires base { end.now.base ≤ tally.old.base }
    requires upto { tally.old.base ≤ end.now.sent }
    requires number { number ≤ limit_of_messages }
    requires room { end.now.taken + untaken.old ≤ limit_of_messages + 1 }
    ensures ok { IsTrueThen result ((p : Spot) (to : EndId) (msg : Msg) (ms : List Msg) → length ms ≡ untaken.old →
        rules.at_held max (held_by (end_at_spot end.now p) tally.old ms) from (bodies.Carry to conn number taken msg)
        ≡ Some (record { state = held_by (end_at_spot end.now p) tally.new (ms ++ msg ∷ []); posts = [] })) }
    ensures count { IsTrueThen result (untaken.new ≡ untaken.old + 1) }
    ensures unfit { IsFalseThen result ((p : Spot) (to : EndId) (msg : Msg) (ms : List Msg) →
        length ms ≡ untaken.old → rules.at_held max (held_by (end_at_spot end.now p) tally.old ms) from
        (bodies.Carry to conn number taken msg) ≡ None) }
    ensures base { end.now.base ≤ tally.new.base }
    ensures upto { tally.new.base ≤ end.now.sent }
    ensures room { end.now.taken + untaken.new ≤ limit_of_messages + 1 }
{
    let next = end.taken as usize + *untaken;
    if conn != tally.conn || from != tally.peer || tally.fin || number as usize != next {
        return false;
    }
    if taken < tally.base || end.sent < taken {
        return false;
    }
    *untaken += 1;
    tally.base = taken;
    true
}

fn fit_fin(end: &End, tally: &mut Tally, untaken: usize, from: u16, conn: u32, number: u32) -> bool
    requires base { end.now.base ≤ tally.old.base }
    requires upto { tally.old.base ≤ end.now.sent }
    requires room { end.now.taken + untaken ≤ limit_of_messages + 1 }
    ensures ok { IsTrueThen result ((p : Spot) (to : EndId) (ms : List Msg) → length ms ≡ untaken →
        FitsAs (end_at_spot end.now p) tally.old tally.new ms untaken from (bodies.Fin to conn number)) }
    ensures unfit { IsFalseThen result ((p : Spot) (to : EndId) (ms : List Msg) → length ms ≡ untaken →
        rules.at_held max (held_by (end_at_spot end.now p) tally.old ms) from (bodies.Fin to conn number) ≡ None) }
    ensures base { end.now.base ≤ tally.new.base }
    ensures upto { tally.new.base ≤ end.now.sent }
{
    let next = end.taken as usize + untaken;
    if conn != tally.conn || from != tally.peer || tally.fin || number as usize != next {
        return false;
    }
    tally.fin = true;
    true
}

fn fit_signal(end: &End, tally: &mut Tally, from: u16, conn: u32, party: u16, taken: u32) -> bool
    requires base { end.now.base ≤ tally.old.base }
    requires upto { tally.old.base ≤ end.now.sent }
    ensures ok { IsTrueThen result ((p : Spot) (to : EndId) (ms : List Msg) →
        rules.at_held max (held_by (end_at_spot end.now p) tally.old ms) from (bodies.Signal to conn party taken)
        ≡ Some (record {
          state = held_by (end_at_spot end.now p) tally.new ms;
          posts = record { party = from; body = bodies.Ack (bodies.other_end end.now.id) conn }
              ∷ rules.mails_of party (rules.numbered_carries (bodies.other_end end.now.id) (conn + 1) end.now.taken taken
              (drop (taken - end.now.base) end.now.cache));
        })) }
    ensures unfit { IsFalseThen result ((p : Spot) (to : EndId) (ms : List Msg) →
        rules.at_held max (held_by (end_at_spot end.now p) tally.old ms) from (bodies.Signal to conn party taken)
        ≡ None) }
    ensures base { end.now.base ≤ tally.new.base }
    ensures upto { tally.new.base ≤ end.now.sent }
{
    if conn != tally.conn || tally.conn >= MAX_CONN || from != tally.peer {
        return false;
    }
    if taken < tally.base || end.sent < taken {
        return false;
    }
    tally.conn += 1;
    tally.peer = party;
    tally.base = taken;
    true
}
