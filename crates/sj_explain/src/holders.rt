//! Who holds an end at the end of a file, by the messages that moved it.
ghost use Rattle.std.specs.Prelude.{◌≤◌};
ghost use Rattle.sj_plain.specs.Plain.{party_count};

use sj_base::{EndId, Msg};
use sj_lang::File;
use sj_plain::Plain;

/// How many parties there are.
pub(crate) fn party_count(plain: &Plain) -> u16
    ensures { result ≤ party_count plain.now }
{
    u16::try_from(plain.parties()).unwrap_or(0)
}

/// How many sessions there are by their numbers.
fn session_count(plain: &Plain) -> u32 {
    u32::try_from(plain.sessions()).unwrap_or(0)
}

/// The end of the same session on the other side.
pub(crate) fn other_end(end: EndId) -> EndId {
    let side = if end.side == 0 { 1 } else { 0 };
    EndId {
        sess: end.sess,
        side,
    }
}

/// Both ends of the session of that number.
fn ends_of(sess: u32) -> [EndId; 2] {
    [EndId { sess, side: 0 }, EndId { sess, side: 1 }]
}

/// How often that party sent the end, and how often it took it; and an end over which it is on its
/// way.
#[derive(Clone, Copy)]
struct Moves {
    sent: usize,
    taken: usize,
    carrier: Option<EndId>,
}

fn moves_of(plain: &Plain, end: EndId, party: u16) -> Moves {
    let mut moves = Moves {
        sent: 0,
        taken: 0,
        carrier: None,
    };
    for sess in 0..session_count(plain) {
        for carrier in ends_of(sess) {
            moves = moves_over(plain, end, party, carrier, moves);
        }
    }
    moves
}

fn moves_over(plain: &Plain, end: EndId, party: u16, carrier: EndId, before: Moves) -> Moves {
    let mut moves = before;
    let takers = plain.takers(carrier);
    for (k, passed) in plain.sent(carrier).iter().enumerate() {
        if is_move(passed.msg, end) {
            if passed.by == party {
                moves.sent = moves.sent.saturating_add(1);
            }
            match takers.get(k) {
                Some(taker) if *taker == party => moves.taken = moves.taken.saturating_add(1),
                Some(_) => {}
                None => moves.carrier = Some(carrier),
            }
        }
    }
    moves
}

fn is_move(msg: Msg, end: EndId) -> bool {
    match msg {
        Msg::Sess { sess, side, .. } => sess == end.sess && side == end.side,
        _ => false,
    }
}

/// Whether the end was ever delegated.
pub(crate) fn has_moved(plain: &Plain, end: EndId) -> bool {
    for party in 0..party_count(plain) {
        if moves_of(plain, end, party).sent > 0 {
            return true;
        }
    }
    false
}

/// The party that held the end first.
pub(crate) fn first_holder(file: &File, plain: &Plain, end: EndId) -> Option<u16> {
    match file.connects.get(end.sess as usize) {
        Some(connect) => {
            let decl = if end.side == 0 {
                connect.first
            } else {
                connect.second
            };
            party_named(file, decl.party)
        }
        None => {
            for opened in plain.opened() {
                if opened.sess == end.sess {
                    return Some(if end.side == 0 {
                        opened.from
                    } else {
                        opened.to
                    });
                }
            }
            None
        }
    }
}

fn party_named(file: &File, name: u16) -> Option<u16> {
    for (i, party) in file.parties.iter().enumerate() {
        if party.name == name {
            return u16::try_from(i).ok();
        }
    }
    None
}

/// The party that holds the end, or that would take the message by which it moves.
pub(crate) fn holder(file: &File, plain: &Plain, end: EndId) -> Option<u16> {
    let mut sought = end;
    for _ in 0..=session_count(plain) {
        let origin = first_holder(file, plain, sought);
        let mut carrier = None;
        for party in 0..party_count(plain) {
            let moves = moves_of(plain, sought, party);
            let first = if origin == Some(party) { 1 } else { 0 };
            if moves.taken.saturating_add(first) > moves.sent {
                return Some(party);
            }
            carrier = moves.carrier;
        }
        sought = other_end(carrier?);
    }
    None
}

/// The name that the end has from its connection or its opening, where its first holder has it
/// still.
pub(crate) fn name_of(file: &File, plain: &Plain, end: EndId) -> Option<u16> {
    if has_moved(plain, end) {
        return None;
    }
    match file.connects.get(end.sess as usize) {
        Some(connect) => {
            let decl = if end.side == 0 {
                connect.first
            } else {
                connect.second
            };
            Some(decl.name)
        }
        None => {
            for opened in plain.opened() {
                if opened.sess == end.sess {
                    return if end.side == 0 {
                        Some(opened.first)
                    } else {
                        opened.second
                    };
                }
            }
            None
        }
    }
}
