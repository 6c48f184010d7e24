//! The generated file, run by its parties and summed up.
use crate::calls::answer_past;
use sj_end::Entry;
use sj_lane::RingLinks;
use sj_work::Gate;
use std::sync::atomic::{AtomicU64, Ordering};
use std::test::Fail;

// How many events it has seen of each party.
#[derive(Drop)]
struct Counting {
    seen: Vec<AtomicU64>,
}

impl Gate for Counting {
    fn pass(&self, party: u16, _entry: &Entry) {
        if let Some(seen) = self.seen.get(party as usize) {
            seen.fetch_add(1, Ordering::SeqCst);
        }
    }
}

#[test]
fn a_thousand_turns_are_summed_up_and_parties_are_seen(rt: HostRuntime) -> Result<(), Fail> {
    let mut seen = Vec::new(rt.alloc());
    for _ in 0..16 {
        seen.push(AtomicU64::new(0))?;
    }
    let gate = Counting { seen };
    let words = ["big", "1000"];
    let mut links = RingLinks::new();
    let (status, out) = answer_past(&rt, rt.alloc(), &words, b"", &mut links, &gate)?;
    let wanted = "big 1000 parties 15 sessions 10 messages 10015 steps 25055\ndone\n";
    assert_eq!(rt; out.text(), wanted.as_bytes());
    assert_eq!(rt; status, 0);
    // The sender and the giver of each group.
    for (party, seen) in gate.seen.iter().enumerate() {
        let unseen = seen.load(Ordering::SeqCst) == 0;
        assert!(rt; party > 13 || party % 3 == 2 || !unseen, "party {party}");
    }
    Ok(())
}
