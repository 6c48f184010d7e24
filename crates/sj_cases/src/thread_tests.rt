//! Parties that run on threads.
use crate::calls::{answer, answer_past};
use crate::files::{AGENCY, BACK_AGAIN, CROSSING, OPENED};
use crate::transcripts::{
    AGENCY_TRANSCRIPT, BACK_AGAIN_TRANSCRIPT, CROSSING_TRANSCRIPT, OPENED_TRANSCRIPT,
};
use crate::worlds::{accepted, log_of};
use sj_end::{Entry, Line};
use sj_lane::RingLinks;
use sj_work::Gate;
use std::alloc::Global;
use std::process::Abort;
use std::sync::atomic::{AtomicU64, Ordering};
use std::sync::{Mutex, Wait};
use std::test::Fail;
use std::thread::Threads;

// Each of two parties is held at its first event until the other has passed its own, or so many looks
// didn't show it. Of the entries it notes those whose clock is that number or more.
#[derive(Drop)]
struct Meeting<'a, R> {
    rt: &'a R,
    from: u64,
    noted: Mutex<Vec<Line>>,
    first: AtomicU64,
    second: AtomicU64,
    first_saw: AtomicU64,
    second_saw: AtomicU64,
}

impl<'a, R> Meeting<'a, R> {
    fn new(rt: &'a R, alloc: Global, from: u64) -> Meeting<'a, R> {
        Meeting {
            rt,
            from,
            noted: Mutex::new(Vec::new(alloc)),
            first: AtomicU64::new(0),
            second: AtomicU64::new(0),
            first_saw: AtomicU64::new(0),
            second_saw: AtomicU64::new(0),
        }
    }
}

impl<R: Wait + Sync> Gate for Meeting<'_, R> {
    fn pass(&self, party: u16, entry: &Entry) {
        if entry.clock >= self.from {
            let line = Line {
                party,
                entry: *entry,
            };
            // Without memory the entry isn't noted.
            let _ = self.noted.lock(self.rt).push(line);
        }
        let (own, other, saw) = if party == 0 {
            (&self.first, &self.second, &self.first_saw)
        } else {
            (&self.second, &self.first, &self.second_saw)
        };
        own.store(1, Ordering::SeqCst);
        for _ in 0..200_000_000u32 {
            if other.load(Ordering::SeqCst) == 1 {
                saw.store(1, Ordering::SeqCst);
                return;
            }
        }
    }
}

const MEETING: &str = "protocol p { begin.!<int> }\n\
    protocol q { begin.?(int) }\n\
    party a { let m = 1; send x 5; close x; }\n\
    party b { let m = 1; recv y n int; close y; }\n\
    connect a x p to b y q;\n";

const MET: &str = "session 0 a x b y\n\
    0.0 0 a b int 5\n\
    party a ended 3\n\
    party b ended 3\n\
    done\n";

// The lines of the party of that name.
fn lines_of(alloc: Global, log: &str, name: &str) -> Result<Vec<u8>, Fail> {
    let mut text = Vec::new(alloc);
    for line in log.lines() {
        if line.split_whitespace().nth(1) == Some(name) {
            text.extend_from_slice(line.as_bytes())?;
            text.push(b'\n')?;
        }
    }
    Ok(text)
}

// Of the party of that name, whether what was noted isn't empty and is a prefix of its lines in the log.
fn is_front(alloc: Global, log: &str, party: (u16, &str), noted: &[Line]) -> Result<bool, Fail> {
    let accepted = accepted(alloc, MEETING.as_bytes())?;
    let seen = log_of(alloc, accepted.file(), party.0, noted)?;
    let whole = lines_of(alloc, log, party.1)?;
    Ok(!seen.is_empty() && whole.starts_with(&seen))
}

#[test]
fn two_parties_wait_for_each_other(rt: HostRuntime) -> Result<(), Fail> {
    let rows = [
        (["run"].as_slice(), false),
        (&["run", "--log"], true),
        (&["run", "--workers", "2"], false),
    ];
    for (words, logs) in rows {
        let gate = Meeting::new(&rt, rt.alloc(), 0);
        let mut links = RingLinks::new();
        let file = MEETING.as_bytes();
        let (status, out) = answer_past(&rt, rt.alloc(), words, file, &mut links, &gate)?;
        assert!(rt; out.text().starts_with(MET.as_bytes()), "{words:?}");
        assert!(rt; logs || out.text().len() == MET.len(), "{words:?}");
        assert_eq!(rt; status, 0, "{words:?}");
        assert_eq!(rt; gate.first_saw.load(Ordering::SeqCst), 1, "{words:?}");
        assert_eq!(rt; gate.second_saw.load(Ordering::SeqCst), 1, "{words:?}");
    }
    Ok(())
}

// A party is inside during each of its events, until it has looked so often, or two were seen inside.
#[derive(Drop)]
struct Room {
    looks: u32,
    inside: AtomicU64,
    saw_two: AtomicU64,
    first_came: AtomicU64,
    second_came: AtomicU64,
}

impl Room {
    fn new(looks: u32) -> Room {
        Room {
            looks,
            inside: AtomicU64::new(0),
            saw_two: AtomicU64::new(0),
            first_came: AtomicU64::new(0),
            second_came: AtomicU64::new(0),
        }
    }
}

impl Gate for Room {
    fn pass(&self, party: u16, _entry: &Entry) {
        if party == 0 {
            self.first_came.store(1, Ordering::SeqCst);
        } else {
            self.second_came.store(1, Ordering::SeqCst);
        }
        self.inside.fetch_add(1, Ordering::SeqCst);
        for _ in 0..self.looks {
            if self.inside.load(Ordering::SeqCst) > 1 {
                self.saw_two.store(1, Ordering::SeqCst);
            }
            if self.saw_two.load(Ordering::SeqCst) == 1 {
                break;
            }
        }
        self.inside.fetch_sub(1, Ordering::SeqCst);
    }
}

#[test]
fn on_one_thread_no_two_parties_are_seen_at_once(rt: HostRuntime) -> Result<(), Fail> {
    for (threads, times, two) in [("1", 1000, 0), ("2", 200_000_000, 1)] {
        for looks in ["0", "1"] {
            let room = Room::new(times);
            let words = ["run", "--workers", threads, "--looks", looks];
            let mut links = RingLinks::new();
            let file = MEETING.as_bytes();
            let (status, out) = answer_past(&rt, rt.alloc(), &words, file, &mut links, &room)?;
            assert_eq!(rt; out.text(), MET.as_bytes(), "{words:?}");
            assert_eq!(rt; status, 0, "{words:?}");
            assert_eq!(rt; room.first_came.load(Ordering::SeqCst), 1, "{words:?}");
            assert_eq!(rt; room.second_came.load(Ordering::SeqCst), 1, "{words:?}");
            assert_eq!(rt; room.saw_two.load(Ordering::SeqCst), two, "{words:?}");
        }
    }
    Ok(())
}

// A gate that drops the first entry of each party has no prefix of them.
#[test]
fn what_a_gate_saw_of_a_party_is_a_front_of_its_lines(rt: HostRuntime) -> Result<(), Fail> {
    for (from, wanted) in [(0, true), (2, false)] {
        let gate = Meeting::new(&rt, rt.alloc(), from);
        let words = ["run", "--log"];
        let mut links = RingLinks::new();
        let file = MEETING.as_bytes();
        let (_, out) = answer_past(&rt, rt.alloc(), &words, file, &mut links, &gate)?;
        let Ok(told) = std::str::from_utf8(out.text()) else {
            return Err(Fail::from("no text"));
        };
        let (_, log) = told.split_once("%%log\n").ok_or("no log")?;
        let noted = gate.noted.into_inner();
        for party in [(0, "a"), (1, "b")] {
            let front = is_front(rt.alloc(), log, party, &noted)?;
            assert_eq!(rt; front, wanted, "{party:?} from {from}");
        }
    }
    Ok(())
}

// How often parties look, and how often a file is run so.
const OFTEN: [(&str, usize); 4] = [("0", 40), ("1", 40), ("1000", 40), ("1000000", 4)];

#[test]
fn however_often_parties_look_the_transcript_is_one(rt: HostRuntime) -> Result<(), Fail> {
    let rows = [
        (AGENCY, AGENCY_TRANSCRIPT),
        (CROSSING, CROSSING_TRANSCRIPT),
        (BACK_AGAIN, BACK_AGAIN_TRANSCRIPT),
    ];
    for (file, wanted) in rows {
        for (looks, times) in OFTEN {
            let words = ["run", "--looks", looks];
            for _ in 0..times {
                let (status, out) = answer(&rt, rt.alloc(), &words, file.as_bytes())?;
                assert_eq!(rt; out.text(), wanted.as_bytes(), "{words:?}");
                assert_eq!(rt; status, 0, "{words:?}");
            }
        }
    }
    Ok(())
}

// A session for each customer has one transcript in five hundred runs.
fn expect_opened<R: Abort + Threads + Sync>(
    rt: &R,
    alloc: Global,
    looks: &str,
) -> Result<(), Fail> {
    for _ in 0..500 {
        let (status, out) = answer(rt, alloc, &["run", "--looks", looks], OPENED.as_bytes())?;
        assert_eq!(rt; out.text(), OPENED_TRANSCRIPT.as_bytes());
        assert_eq!(rt; status, 0);
    }
    Ok(())
}

#[test]
fn sessions_for_customers_are_opened_where_parties_look_often(rt: HostRuntime) -> Result<(), Fail> {
    expect_opened(&rt, rt.alloc(), "1000")
}

#[test]
fn sessions_for_customers_are_opened_where_parties_look_once(rt: HostRuntime) -> Result<(), Fail> {
    expect_opened(&rt, rt.alloc(), "1")
}
