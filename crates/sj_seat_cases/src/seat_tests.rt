//! Parties of small files that are played by code, beside parties that go by the file, over rings.

use sj_base::{EndId, Msg};
use sj_check::{Accepted, check};
use sj_lane::{Lanes, Links, RingIn, RingLinks, RingOut};
use sj_node::Node;
use sj_party::parse_file;
use sj_proto::Tokens;
use sj_seat::{Guest, Opening, SeatRefusal, carries_places, text_count};
use sj_work::{NoGate, Stop, Worker, work};
use std::alloc::Global;
use std::test::Fail;

type RingWorker = Worker<RingOut, RingIn>;

type RingGuest<'a> = Guest<'a, RingOut, RingIn, NoGate>;

// A buyer, who asks for a number of things, and a seller, who has five.
const SHOP: &[u8] = b"protocol buys { begin.!<int>.?{YES: ?(String), NO:} }
protocol sells { begin.?(int).!{YES: !<String>, NO:} }
party buyer {
  send x 9;
  inbranch x { YES: { recv x t String; close x; } NO: { close x; } }
}
party seller {
  recv y n int;
  if n <= 5 { outbranch y YES; send y \"here\"; close y; } else { outbranch y NO; close y; }
}
connect buyer x buys to seller y sells;
";

// b hands its end of the first session on to c.
const HANDED: &[u8] = b"protocol p { begin.!<int> }
protocol q { begin.?(int) }
protocol g { begin.!<?(int)> }
protocol h { begin.?(?(int)) }
party a { send x 5; close x; }
party b { delegate z y; close z; }
party c { recv u s session q; close u; recv s n int; close s; }
connect a x p to b y q;
connect b z g to c u h;
";

// a opens a session to b, and b one to a.
const OPENED: &[u8] = b"protocol p { begin.!<int> }
protocol q { begin.?(int) }
party a { request x p to b; send x 5; close x; accept z q from b; recv z n int; close z; }
party b { accept y q from a; recv y n int; close y; request w p to a; send w 7; close w; }
";

// a opens a session to b, which holds no end before.
const ASKED: &[u8] = b"protocol p { begin.!<int> }
protocol q { begin.?(int) }
party a { request x p to b; send x 5; close x; }
party b { accept y q from a; recv y n int; close y; }
";

// Two parties each send c a number.
const TWO: &[u8] = b"protocol p { begin.!<int> }
protocol q { begin.?(int) }
party a { send x 5; close x; }
party b { send y 6; close y; }
party c { recv u n int; recv v m int; close u; close v; }
connect a x p to c u q;
connect b y p to c v q;
";

/// The end of the first session that its connection names first.
const X: EndId = EndId { sess: 0, side: 0 };

/// The other one.
const Y: EndId = EndId { sess: 0, side: 1 };

/// Those of the second session.
const Z: EndId = EndId { sess: 1, side: 0 };

const U: EndId = EndId { sess: 1, side: 1 };

/// a's ends of the session that it opens first, and of the one that b opens first.
const OWN: EndId = EndId { sess: 64, side: 0 };

const OFFERED: EndId = EndId { sess: 164, side: 1 };

/// b's end of the session that a opens first.
const GIVEN: EndId = EndId { sess: 64, side: 1 };

fn accepted(alloc: Global, text: &[u8]) -> Result<Accepted, Fail> {
    if text.len() > Tokens::MOST_BYTES {
        return Err(Fail::from("too long"));
    }
    let file = parse_file(alloc, text)?;
    match check(alloc, file) {
        Ok(accepted) => Ok(accepted),
        Err(_) => Err(Fail::from("refused")),
    }
}

fn hired(
    alloc: Global,
    accepted: &Accepted,
    party: u16,
    lanes: Option<Lanes<RingOut, RingIn>>,
) -> Result<RingWorker, Fail> {
    if party as usize >= accepted.file().parties.len() {
        return Err(Fail::from("no such party"));
    }
    let node = Node::start(alloc, accepted, party, 0)?;
    Ok(Worker::new(node, lanes.ok_or("no lanes")?))
}

fn seated(
    alloc: Global,
    accepted: &Accepted,
    party: u16,
    lanes: Option<Lanes<RingOut, RingIn>>,
) -> Result<RingGuest<'static>, Fail> {
    if party as usize >= accepted.file().parties.len() {
        return Err(Fail::from("no such party"));
    }
    let table = accepted.table();
    if !carries_places(table) {
        return Err(Fail::from("a place isn't in the table"));
    }
    let lanes = lanes.ok_or("no lanes")?;
    let texts = text_count(accepted.file());
    Ok(Guest::start(alloc, accepted, table, party, lanes, texts, 1, &NoGate)?)
}

fn first_of(openings: &[Opening]) -> Result<Opening, Fail> {
    match openings.get(0) {
        Some(opening) => Ok(*opening),
        None => Err(Fail::from("no opening")),
    }
}

#[test]
fn code_buys_beside_a_seller_of_the_file(rt: HostRuntime) -> Result<(), Fail> {
    let alloc = rt.alloc();
    let accepted = accepted(alloc, SHOP)?;
    let mut lanes = RingLinks::new().make(alloc, 2)?;
    let mut seller = hired(alloc, &accepted, 1, lanes.pop())?;
    let mut buyer = seated(alloc, &accepted, 0, lanes.pop())?;
    assert_eq!(rt; buyer.send(Y, Msg::Int(4)), Err(SeatRefusal::NotHeld));
    assert_eq!(rt; buyer.take(X), Err(SeatRefusal::BeginsOtherwise));
    assert_eq!(rt; buyer.send(X, Msg::Bool(true)), Err(SeatRefusal::WrongKind));
    assert_eq!(rt; buyer.send(X, Msg::Int(4)), Ok(()));
    assert_eq!(rt; buyer.take(X), Err(SeatRefusal::Waiting));
    work(&mut seller, 1, &NoGate);
    assert!(rt; matches!(buyer.take(X), Ok(Msg::Label(_))));
    assert_eq!(rt; buyer.take(X), Ok(Msg::Text(0)));
    assert_eq!(rt; buyer.close(X), Ok(()));
    assert_eq!(rt; buyer.close(X), Err(SeatRefusal::NotHeld));
    assert_eq!(rt; work(&mut seller, 1, &NoGate), Stop::Finished);
    let (_, left) = buyer.leave();
    assert!(rt; left.is_empty());
    Ok(())
}

#[test]
fn code_hands_an_end_on(rt: HostRuntime) -> Result<(), Fail> {
    let alloc = rt.alloc();
    let accepted = accepted(alloc, HANDED)?;
    let mut lanes = RingLinks::new().make(alloc, 3)?;
    let mut c = hired(alloc, &accepted, 2, lanes.pop())?;
    let mut b = seated(alloc, &accepted, 1, lanes.pop())?;
    let mut a = hired(alloc, &accepted, 0, lanes.pop())?;
    assert_eq!(rt; b.delegate(Z, Z), Err(SeatRefusal::WrongEnd));
    assert_eq!(rt; b.delegate(Z, Y), Ok(()));
    assert_eq!(rt; b.take(Y), Err(SeatRefusal::NotHeld));
    assert_eq!(rt; b.close(Z), Ok(()));
    let (mut b, left) = b.leave();
    assert!(rt; left.is_empty());
    for _ in 0..10 {
        work(&mut a, 1, &NoGate);
        work(&mut b, 1, &NoGate);
        work(&mut c, 1, &NoGate);
    }
    for worker in [&a, &b, &c] {
        assert_eq!(rt; worker.stop(), Some(Stop::Finished));
    }
    Ok(())
}

#[test]
fn code_takes_an_end_and_waits_for_it(rt: HostRuntime) -> Result<(), Fail> {
    let alloc = rt.alloc();
    let accepted = accepted(alloc, HANDED)?;
    let mut lanes = RingLinks::new().make(alloc, 3)?;
    let mut c = seated(alloc, &accepted, 2, lanes.pop())?;
    let mut b = hired(alloc, &accepted, 1, lanes.pop())?;
    let mut a = hired(alloc, &accepted, 0, lanes.pop())?;
    assert_eq!(rt; c.take(U), Err(SeatRefusal::BeginsOtherwise));
    assert_eq!(rt; c.take_end(U), Err(SeatRefusal::Waiting));
    work(&mut b, 1, &NoGate);
    assert_eq!(rt; c.take_end(U), Ok(Some(Y)));
    assert_eq!(rt; c.take(Y), Err(SeatRefusal::Waiting));
    assert_eq!(rt; c.ends().len(), 2);
    for _ in 0..10 {
        work(&mut a, 1, &NoGate);
        work(&mut b, 1, &NoGate);
        let _ = c.take_end(Y);
    }
    assert_eq!(rt; c.take(Y), Ok(Msg::Int(5)));
    assert_eq!(rt; c.close(Y), Ok(()));
    assert_eq!(rt; c.close(U), Ok(()));
    assert_eq!(rt; c.ends().len(), 0);
    Ok(())
}

#[test]
fn code_opens_a_session_and_accepts_one(rt: HostRuntime) -> Result<(), Fail> {
    let alloc = rt.alloc();
    let accepted = accepted(alloc, OPENED)?;
    let mut lanes = RingLinks::new().make(alloc, 2)?;
    let mut b = hired(alloc, &accepted, 1, lanes.pop())?;
    let mut a = seated(alloc, &accepted, 0, lanes.pop())?;
    let own = first_of(&a.guard().may.requests)?;
    let other = first_of(&a.guard().may.accepts)?;
    assert_eq!(rt; a.request(1, other.protocol), Err(SeatRefusal::NotOpened));
    assert_eq!(rt; a.accept(1, other.protocol), Err(SeatRefusal::Waiting));
    assert_eq!(rt; a.request(1, own.protocol), Ok(OWN));
    assert_eq!(rt; a.send(OWN, Msg::Int(5)), Ok(()));
    work(&mut b, 1, &NoGate);
    assert_eq!(rt; a.accept(1, other.protocol), Ok(OFFERED));
    assert_eq!(rt; a.take(OFFERED), Ok(Msg::Int(7)));
    assert_eq!(rt; a.close(OFFERED), Ok(()));
    assert_eq!(rt; a.close(OWN), Ok(()));
    assert_eq!(rt; a.ends().len(), 0);
    assert_eq!(rt; work(&mut b, 1, &NoGate), Stop::Finished);
    Ok(())
}

#[test]
fn code_that_holds_no_end_accepts_a_session(rt: HostRuntime) -> Result<(), Fail> {
    let alloc = rt.alloc();
    let accepted = accepted(alloc, ASKED)?;
    let mut lanes = RingLinks::new().make(alloc, 2)?;
    let mut b = seated(alloc, &accepted, 1, lanes.pop())?;
    let mut a = hired(alloc, &accepted, 0, lanes.pop())?;
    let offer = first_of(&b.guard().may.accepts)?;
    assert_eq!(rt; b.ends().len(), 0);
    assert_eq!(rt; b.accept(0, offer.protocol), Err(SeatRefusal::Waiting));
    work(&mut a, 1, &NoGate);
    assert_eq!(rt; b.accept(0, offer.protocol), Ok(GIVEN));
    assert_eq!(rt; b.take(GIVEN), Ok(Msg::Int(5)));
    assert_eq!(rt; b.close(GIVEN), Ok(()));
    assert_eq!(rt; b.ends().len(), 0);
    assert_eq!(rt; work(&mut a, 1, &NoGate), Stop::Finished);
    Ok(())
}

#[test]
fn code_takes_from_the_end_that_has_a_message(rt: HostRuntime) -> Result<(), Fail> {
    let alloc = rt.alloc();
    let accepted = accepted(alloc, TWO)?;
    let mut lanes = RingLinks::new().make(alloc, 3)?;
    let mut c = seated(alloc, &accepted, 2, lanes.pop())?;
    let mut b = hired(alloc, &accepted, 1, lanes.pop())?;
    assert!(rt; matches!(c.take_any(&[Y, U]), Err(SeatRefusal::Waiting)));
    work(&mut b, 1, &NoGate);
    assert_eq!(rt; c.ready(U), Ok(true));
    assert_eq!(rt; c.ready(Y), Ok(false));
    assert_eq!(rt; c.ready(X), Err(SeatRefusal::NotHeld));
    let Ok((end, msg)) = c.take_any(&[Y, U]) else {
        return Err(Fail::from("nothing was taken"));
    };
    assert_eq!(rt; end, U);
    assert_eq!(rt; msg, Msg::Int(6));
    assert!(rt; matches!(c.take_any(&[Y, U]), Err(SeatRefusal::BeginsOtherwise)));
    assert!(rt; matches!(c.take_any(&[Y]), Err(SeatRefusal::Waiting)));
    Ok(())
}
