//! Each call of a handover once. Whole handovers are cases of the program.
ghost use Rattle.std.specs.Prelude.{◌≡◌};

use sj_base::{EndId, Msg, NoMemory};
use sj_end::{Body, End, Expected, Held, Note, Parked, Post, Signalled, note_of};
use sj_handover::{Usable, acked, claim, crossed, fits_install, install, passive, signal};
use sj_table::Spot;
use std::alloc::Global;
use std::collections::VecDeque;
use std::test::Fail;

const FIRST: EndId = EndId { sess: 0, side: 0 };

const SECOND: EndId = EndId { sess: 0, side: 1 };

// Parties a, b, c and d.
const A: u16 = 0;

const B: u16 = 1;

const C: u16 = 2;

const D: u16 = 3;

const AWAITED: Spot = Spot { node: 3 };

// An end on which nothing was sent, and so many messages were taken.
fn end_of(alloc: Global, id: EndId, peer: u16, taken: u32) -> End
    ensures conn { result.conn ≡ 0 }
    ensures sent { result.sent ≡ 0 }
    ensures taken { result.taken ≡ taken }
    ensures base { result.base ≡ 0 }
{
    End {
        id,
        place: Spot { node: 0 },
        conn: 0,
        peer,
        sent: 0,
        taken,
        base: 0,
        cache: VecDeque::new(alloc),
        hops: 0,
    }
}

fn shown(post: &Post) -> (u16, Note) {
    (post.to, note_of(&post.body))
}

fn give(of: EndId, peer: u16, taken: u32, resend: Option<u32>) -> Note {
    Note::Give {
        of,
        conn: 1,
        peer,
        sent: 0,
        taken,
        base: 0,
        resend,
    }
}

#[test]
fn a_signal_is_answered_with_an_ack(rt: HostRuntime) -> Result<(), Fail> {
    let alloc = rt.alloc();
    let end = Box::new(alloc, end_of(alloc, FIRST, B, 0))?;
    let parked = Parked { end };
    let Ok((state, posts)) = passive(alloc, Usable::Parked(parked), B, C, 0) else {
        return Err(NoMemory)?;
    };
    let ack = Note::Ack {
        of: SECOND,
        conn: 0,
    };
    assert_eq!(rt; posts.len(), 1);
    assert_eq!(rt; posts.first().map(shown), Some((B, ack)));
    assert!(rt; matches!(&state, Usable::Parked(parked) if parked.end.peer == C));
    Ok(())
}

#[test]
fn a_parked_end_is_told_and_goes_at_the_ack(rt: HostRuntime) -> Result<(), Fail> {
    let alloc = rt.alloc();
    let end = Box::new(alloc, end_of(alloc, SECOND, A, 1))?;
    let parked = Parked { end };
    let (signalled, post) = signal(parked, C);
    let told = Note::Signal {
        to: FIRST,
        conn: 0,
        party: C,
        taken: 1,
    };
    assert_eq!(rt; shown(&post), (A, told));
    let gone = acked(signalled);
    assert_eq!(rt; shown(&gone), (C, give(SECOND, A, 1, None)));
    Ok(())
}

#[test]
fn an_end_goes_at_a_crossing_signal(rt: HostRuntime) -> Result<(), Fail> {
    let alloc = rt.alloc();
    let end = Box::new(alloc, end_of(alloc, FIRST, B, 0))?;
    let gone = crossed(Signalled { end, to: C }, D, 0);
    assert_eq!(rt; shown(&gone), (C, give(FIRST, D, 0, Some(0))));
    Ok(())
}

// What is awaited of b, where a message of that number came for it.
fn awaiting(alloc: Global, number: u32) -> Result<Expected, NoMemory> {
    let (mut expected, _) = claim(alloc, SECOND, B, AWAITED);
    let carry = Body::Carry {
        to: SECOND,
        conn: 0,
        number: number.min(9),
        taken: 0,
        msg: Msg::Int(2),
    };
    if expected.defer(A, carry).is_err() {
        return Err(NoMemory);
    }
    Ok(expected)
}

#[test]
fn an_end_is_there_once_what_was_deferred_fits(rt: HostRuntime) -> Result<(), Fail> {
    let alloc = rt.alloc();
    let late = awaiting(alloc, 0)?;
    let expected = awaiting(alloc, 1)?;
    let end = end_of(alloc, SECOND, A, 1);
    assert!(rt; !fits_install(&late, &end, None), "another message");
    assert!(rt;
        !fits_install(&expected, &end, Some(1)),
        "a resend beyond the cache"
    );
    assert!(rt; fits_install(&expected, &end, None), "it fits");
    let Ok((held, posts)) = install(alloc, expected, end, None) else {
        return Err(NoMemory)?;
    };
    assert_eq!(rt; (posts.len(), held.head()), (0, Some(Msg::Int(2))));
    assert_eq!(rt; (held.end.place, held.end.taken), (AWAITED, 1));
    Ok(())
}

#[test]
fn a_claim_goes_to_the_keeper(rt: HostRuntime) {
    let (expected, claimed) = claim(rt.alloc(), SECOND, B, AWAITED);
    assert_eq!(rt; note_of(&claimed), Note::Claim { of: SECOND });
    assert_eq!(rt; (expected.keeper, expected.place), (B, AWAITED));
}
