//! The greeting, whose parties work over rings and over streams.

use sj_base::EndId;
use sj_check::Accepted;
use sj_end::{Body, Entry, Event, Frame, Line, Note};
use sj_lane::{InLane, Lanes, Links, OutLane, RingIn, RingLinks, RingOut};
use sj_node::Node;
use sj_socket::SocketLinks;
use sj_work::{Gate, NoGate, Stop, Worker, work, work_all};
use std::alloc::Global;
use std::sync::atomic::{AtomicU64, Ordering};
use std::test::Fail;

mod greeting;

use greeting::{greeting, opened};

const A: u16 = 0;

const B: u16 = 1;

type RingWorker = Worker<RingOut, RingIn>;

fn hired<O: OutLane, I: InLane>(
    alloc: Global,
    accepted: &Accepted,
    party: u16,
    lanes: Option<Lanes<O, I>>,
) -> Result<Worker<O, I>, Fail> {
    if party as usize >= accepted.file().parties.len() {
        return Err(Fail::from("no such party"));
    }
    let node = Node::start(alloc, accepted, party, 0)?;
    Ok(Worker::new(node, lanes.ok_or("no lanes")?))
}

/// The workers of a and b.
fn both(alloc: Global) -> Result<(RingWorker, RingWorker), Fail> {
    let accepted = greeting(alloc)?;
    let mut links = RingLinks::new();
    let mut lanes = links.make(alloc, 2)?;
    let b = hired(alloc, &accepted, B, lanes.pop())?;
    let a = hired(alloc, &accepted, A, lanes.pop())?;
    Ok((a, b))
}

#[test]
fn both_finish_on_threads(rt: HostRuntime) -> Result<(), Fail> {
    let alloc = rt.alloc();
    let (a, b) = both(alloc)?;
    let mut workers = vec![in alloc; a, b]?;
    for _ in 0..10 {
        work_all(&rt, &mut workers, 1, &NoGate);
    }
    for worker in &workers {
        assert_eq!(rt; worker.stop(), Some(Stop::Finished));
    }
    Ok(())
}

#[test]
fn a_frame_that_fits_no_row_stops_for_good(rt: HostRuntime) -> Result<(), Fail> {
    let (mut a, mut b) = both(rt.alloc())?;
    let end = EndId { sess: 0, side: 1 };
    let frame = Frame {
        clock: 4,
        body: Body::Claim { of: end },
    };
    let lane = b.lanes().outs.get_mut(0).ok_or("no lane")?;
    assert!(rt; lane.push(frame).is_ok());
    let line = Line {
        party: A,
        entry: Entry {
            clock: 5,
            event: Event::Deliver(B),
            note: Note::Claim { of: end },
        },
    };
    assert_eq!(rt; a.unfit(), None);
    assert_eq!(rt; work(&mut a, 1, &NoGate), Stop::Unfit);
    assert_eq!(rt; work(&mut a, 1, &NoGate), Stop::Unfit);
    assert_eq!(rt; a.unfit(), Some(line));
    assert_eq!(rt; a.node().log().len(), 0);
    Ok(())
}

/// The clocks that it has seen, as digits.
#[derive(Drop)]
struct Clocks {
    digits: AtomicU64,
}

fn with_digit(digits: u64, clock: u64) -> u64 {
    digits.wrapping_mul(10).wrapping_add(clock)
}

impl Gate for Clocks {
    fn pass(&self, _party: u16, entry: &Entry) {
        let digits = self.digits.load(Ordering::Relaxed);
        self.digits
            .store(with_digit(digits, entry.clock), Ordering::Relaxed);
    }
}

#[test]
fn both_finish_within_three_calls_and_a_gate_sees_each_event(rt: HostRuntime) -> Result<(), Fail> {
    let (mut a, mut b) = both(rt.alloc())?;
    let gate = Clocks {
        digits: AtomicU64::new(0),
    };
    assert_eq!(rt; a.stop(), None);
    for _ in 0..3 {
        work(&mut a, 1, &gate);
        work(&mut b, 1, &NoGate);
    }
    assert_eq!(rt; a.stop(), Some(Stop::Finished));
    assert_eq!(rt; b.stop(), Some(Stop::Finished));
    // The clocks of the greeting's log: a sends, closes, and takes in the Fin.
    assert_eq!(rt; gate.digits.load(Ordering::Relaxed), 126);
    assert_eq!(rt; b.node().log().len(), 4);
    Ok(())
}

/// So often both work, where frames take their time.
const TRIES: u32 = 1_000_000;

/// What the first entry of a log notes.
fn first_note(log: &[Entry]) -> Option<Note> {
    match log.get(0) {
        Some(entry) => Some(entry.note),
        None => None,
    }
}

/// What the first act of a log notes.
fn first_act(log: &[Entry]) -> Option<Note> {
    for entry in log {
        if entry.event == Event::Act {
            return Some(entry.note);
        }
    }
    None
}

/// What a did first, what came to b first, and what b did first, once a session was opened by a,
/// accepted by b and closed.
fn opening_over<O: OutLane, I: InLane>(
    alloc: Global,
    lanes: &mut Vec<Lanes<O, I>>,
) -> Result<[Option<Note>; 3], Fail> {
    let accepted = opened(alloc)?;
    let mut b = hired(alloc, &accepted, B, lanes.pop())?;
    let mut a = hired(alloc, &accepted, A, lanes.pop())?;
    for _ in 0..TRIES {
        let stops = (work(&mut a, 1, &NoGate), work(&mut b, 1, &NoGate));
        if stops == (Stop::Finished, Stop::Finished) {
            let (a, b) = (a.node().log(), b.node().log());
            return Ok([first_note(a), first_note(b), first_act(b)]);
        }
    }
    Err(Fail::from("not finished"))
}

/// a opens the session, its Open comes to b, and b accepts it.
fn opening() -> [Option<Note>; 3] {
    [
        Some(Note::Request { sess: 64, to: B }),
        Some(Note::Open { sess: 64 }),
        Some(Note::Accept { sess: 64, from: A }),
    ]
}

#[test]
fn a_session_is_opened_and_accepted_over_rings(rt: HostRuntime) -> Result<(), Fail> {
    let mut lanes = RingLinks::new().make(rt.alloc(), 2)?;
    assert_eq!(rt; opening_over(rt.alloc(), &mut lanes)?, opening());
    Ok(())
}

#[test]
fn a_session_is_opened_and_accepted_over_streams(rt: HostRuntime) -> Result<(), Fail> {
    let mut lanes = SocketLinks::new(&rt).make(rt.alloc(), 2)?;
    assert_eq!(rt; opening_over(rt.alloc(), &mut lanes)?, opening());
    Ok(())
}
