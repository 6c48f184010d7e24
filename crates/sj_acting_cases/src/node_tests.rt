//! Two nodes that hand an end over to each other, and what a node refuses. Whole histories are cases of
//! the program.
use sj_base::{EndId, Msg, NoMemory};
use sj_check::Accepted;
use sj_end::{Body, CLOCK_END, End, Entry, Event, Frame, Note, note_of};
use sj_node::{DeliverRefusal, Halt, Node};
use sj_table::Spot;
use std::alloc::Global;
use std::collections::VecDeque;
use std::test::Fail;

mod building;
mod opening;

use building::to_the_peer;

const A: u16 = 0;

const B: u16 = 1;

// The end of b before any event.
const OWN: EndId = EndId { sess: 0, side: 1 };

// The end on which b takes the other one.
const CARRIER: EndId = EndId { sess: 1, side: 1 };

fn started(alloc: Global, accepted: &Accepted, party: u16) -> Result<Node, Fail> {
    if party as usize >= accepted.file().parties.len() {
        return Err(Fail::from("no such party"));
    }
    Ok(Node::start(alloc, accepted, party, 0)?)
}

// Acts as long as it can.
fn acts(node: &mut Node) {
    for _ in 0..10 {
        if node.clock() < CLOCK_END {
            let _ = node.act();
        }
    }
}

// What is refused of a frame that comes from that party.
fn refused(node: &mut Node, from: u16, frame: Frame) -> Option<(Frame, DeliverRefusal)> {
    if node.clock() >= CLOCK_END {
        return Some((frame, DeliverRefusal::NoMemory));
    }
    match node.deliver(from, frame) {
        Ok(()) => None,
        Err(refused) => Some(refused),
    }
}

// Whether a frame that waited, if one did, comes to the node.
fn comes(node: &mut Node, from: u16, frame: Option<Frame>) -> bool {
    match frame {
        Some(frame) => refused(node, from, frame).is_none(),
        None => true,
    }
}

#[test]
fn an_end_goes_to_the_party_that_holds_the_other(rt: HostRuntime) -> Result<(), Fail> {
    let alloc = rt.alloc();
    let file = to_the_peer(alloc)?;
    let mut a = started(alloc, &file, A)?;
    let mut b = started(alloc, &file, B)?;
    for _ in 0..12 {
        acts(&mut a);
        acts(&mut b);
        assert!(rt; comes(&mut b, A, a.take_out(B)), "from a");
        assert!(rt; comes(&mut a, B, b.take_out(A)), "to a");
        let own = b.take_out(B);
        assert!(rt; comes(&mut b, B, own), "to b itself");
    }
    assert!(rt; a.finished() && b.finished(), "nothing is left");
    assert_eq!(rt; (a.log().len(), b.log().len()), (5, 13));
    Ok(())
}

fn session(sess: u32, side: u8, keeper: u16) -> Msg {
    Msg::Sess { sess, side, keeper }
}

#[test]
fn an_act_is_due_and_then_noted_and_posted(rt: HostRuntime) -> Result<(), Fail> {
    let alloc = rt.alloc();
    let mut a = started(alloc, &to_the_peer(alloc)?, A)?;
    let entry = Entry {
        clock: 1,
        event: Event::Act,
        note: Note::Sent {
            end: EndId { sess: 1, side: 0 },
            msg: session(0, 0, A),
        },
    };
    if a.clock() < CLOCK_END {
        assert_eq!(rt; a.due(), Some(entry));
        assert!(rt; a.act().is_ok());
    }
    match a.take_out(B) {
        Some(frame) => a.put_back(B, frame),
        None => return Err(Fail::from("nothing is posted")),
    }
    a.give_up_room(B);
    assert_eq!(rt; a.targets(), 2);
    assert_eq!(rt; a.front(B).map(|frame| frame.clock), Some(1));
    assert_eq!(rt; a.take_entry(), Some(entry));
    assert_eq!(rt; a.take_entry(), None);
    assert_eq!(rt; (a.clock(), a.party(), a.parties()), (1, A, 2));
    Ok(())
}

// The message of that number, for that end.
fn carry(to: EndId, conn: u32, number: u32, taken: u32, msg: Msg) -> Body {
    Body::Carry {
        to,
        conn,
        number,
        taken,
        msg,
    }
}

fn fin(conn: u32, number: u32) -> Body {
    Body::Fin {
        to: OWN,
        conn,
        number,
    }
}

fn signal(party: u16, taken: u32) -> Body {
    Body::Signal {
        to: OWN,
        conn: 0,
        party,
        taken,
    }
}

fn give(alloc: Global) -> Result<Body, NoMemory> {
    let end = End {
        id: OWN,
        place: Spot { node: 0 },
        conn: 1,
        peer: A,
        sent: 0,
        taken: 0,
        base: 0,
        cache: VecDeque::new(alloc),
        hops: 1,
    };
    let end = Box::new(alloc, end)?;
    Ok(Body::Give { end, resend: None })
}

#[test]
fn a_frame_that_fits_no_row_is_handed_back(rt: HostRuntime) -> Result<(), Fail> {
    let alloc = rt.alloc();
    let mut b = started(alloc, &to_the_peer(alloc)?, B)?;
    let one = Msg::Int(1);
    let others = EndId { sess: 0, side: 0 };
    let no_session = EndId { sess: 9, side: 0 };
    let no_side = EndId { sess: 0, side: 2 };
    let rows = [
        ("a later message", A, 1, carry(OWN, 0, 1, 0, one)),
        ("another connection", A, 1, carry(OWN, 1, 0, 0, one)),
        ("another party", B, 1, carry(OWN, 0, 0, 0, one)),
        ("more taken than was sent", A, 1, carry(OWN, 0, 0, 1, one)),
        ("the other's end", A, 1, carry(others, 0, 0, 0, one)),
        ("no session", A, 1, carry(no_session, 0, 0, 0, one)),
        ("no side", A, 1, carry(no_side, 0, 0, 0, one)),
        ("a message is missing", A, 1, fin(0, 1)),
        ("nothing was sent on", A, 1, Body::Claim { of: OWN }),
        ("nothing was told", A, 1, Body::Ack { of: OWN, conn: 0 }),
        ("no party", A, 1, signal(9, 0)),
        ("more was sent", A, 1, signal(A, 1)),
        ("nothing is awaited", A, 1, give(alloc)?),
        ("the last clock", A, CLOCK_END, carry(OWN, 0, 0, 0, one)),
        ("a large connection", A, 1, fin(1001, 0)),
        ("a large number", A, 1, fin(0, 1_000_001)),
    ];
    for (what, from, clock, body) in rows {
        let note = note_of(&body);
        let back = refused(&mut b, from, Frame { clock, body }).map(|(frame, why)| (
            frame.clock,
            note_of(&frame.body),
            why,
        ));
        assert_eq!(rt; back, Some((clock, note, DeliverRefusal::Unfit)), "{what}");
    }
    assert!(rt; b.log().is_empty() && b.clock() == 0, "as it was");
    Ok(())
}

// Whether the act is so refused, the entry that is due is that, and nothing is noted further.
fn halts(node: &mut Node, halt: Halt, due: Option<Entry>) -> bool {
    if node.clock() >= CLOCK_END {
        return false;
    }
    let noted = node.log().len();
    node.due() == due && node.act() == Err(halt) && node.log().len() == noted
}

#[test]
fn an_act_waits_or_has_ended(rt: HostRuntime) -> Result<(), Fail> {
    let alloc = rt.alloc();
    let file = to_the_peer(alloc)?;
    let mut a = started(alloc, &file, A)?;
    assert!(rt; !a.idle_now(), "it can send");
    acts(&mut a);
    assert!(rt; halts(&mut a, Halt::Ended, None), "it has sent");
    let mut b = started(alloc, &file, B)?;
    assert!(rt; halts(&mut b, Halt::Waits, None), "nothing is there");
    assert!(rt; a.idle_now() && b.idle_now());
    Ok(())
}

#[test]
fn a_message_that_names_what_is_not_there_is_not_taken(rt: HostRuntime) -> Result<(), Fail> {
    let alloc = rt.alloc();
    let file = to_the_peer(alloc)?;
    for (what, msg) in [
        ("a number for an end", Msg::Int(1)),
        ("no session", session(9, 0, A)),
        ("no side", session(0, 2, A)),
        ("no party", session(0, 0, 9)),
        ("an end that it has", session(0, 1, A)),
    ] {
        let mut b = started(alloc, &file, B)?;
        let frame = Frame {
            clock: 1,
            body: carry(CARRIER, 0, 0, 0, msg),
        };
        assert!(rt; refused(&mut b, A, frame).is_none(), "{what}");
        let due = Entry {
            clock: 3,
            event: Event::Act,
            note: Note::Took { end: CARRIER, msg },
        };
        assert!(rt; halts(&mut b, Halt::Unfit, Some(due)), "{what}");
        assert!(rt; !b.idle_now(), "{what}");
    }
    Ok(())
}
