//! A session that one node opens to another, and Opens that fit no row.
use crate::node_tests::building::by_request;
use crate::node_tests::{A, B, acts, comes, halts, refused, started};
use sj_end::{Body, CLOCK_END, Entry, Event, Frame, Note};
use sj_node::{DeliverRefusal, Halt, Node};
use std::test::Fail;

// The first session that a opens.
const SESSION: u32 = 64;

// Whether the act that is due has that note.
fn is_due(node: &Node, clock: u64, note: Note) -> bool {
    if node.clock() >= CLOCK_END {
        return false;
    }
    let event = Event::Act;
    node.due() == Some(Entry { clock, event, note })
}

#[test]
fn a_session_is_opened_and_accepted(rt: HostRuntime) -> Result<(), Fail> {
    let alloc = rt.alloc();
    let file = by_request(alloc)?;
    let mut a = started(alloc, &file, A)?;
    let mut b = started(alloc, &file, B)?;
    let sess = SESSION;
    assert!(rt; is_due(&a, 1, Note::Request { sess, to: B }), "a requests");
    assert!(rt; halts(&mut b, Halt::Waits, None), "nothing is offered");
    acts(&mut a);
    assert!(rt; comes(&mut b, A, a.take_out(B)), "the Open comes");
    assert!(rt; is_due(&b, 3, Note::Accept { sess, from: A }), "b accepts");
    for _ in 0..2 {
        assert!(rt;
            comes(&mut b, A, a.take_out(B)),
            "what was sent before the accept"
        );
    }
    acts(&mut b);
    assert!(rt; comes(&mut a, B, b.take_out(A)), "to a");
    assert!(rt; a.finished() && b.finished(), "nothing is left");
    assert_eq!(rt; (a.log().len(), b.log().len()), (4, 6));
    Ok(())
}

// What is refused of an Open of that session, which comes from that party.
fn open_refused(node: &mut Node, from: u16, sess: u32) -> Option<DeliverRefusal> {
    let frame = Frame {
        clock: 1,
        body: Body::Open { sess },
    };
    match refused(node, from, frame) {
        Some((_, why)) => Some(why),
        None => None,
    }
}

#[test]
fn an_open_of_a_session_that_is_there_or_of_another_party_fits_no_row(
    rt: HostRuntime,
) -> Result<(), Fail> {
    let alloc = rt.alloc();
    let mut b = started(alloc, &by_request(alloc)?, B)?;
    let unfit = Some(DeliverRefusal::Unfit);
    for (what, from, sess, why) in [
        ("a connection", A, 63, unfit),
        ("the hundredth session of a", A, 163, None),
        ("a session of b", A, 164, unfit),
        ("it is there", A, 163, unfit),
        ("from a party that the file hasn't", B + 1, 264, unfit),
    ] {
        assert_eq!(rt; open_refused(&mut b, from, sess), why, "{what}");
    }
    assert_eq!(rt; b.log().len(), 1);
    Ok(())
}
