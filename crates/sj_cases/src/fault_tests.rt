//! Links that fail or lie, and sources and sinks that fail.
use crate::calls::{USAGE, call, expect_over, joined, sink, source};
use crate::files::{AGENCY, FIRST, OPPOSITE};
use crate::transcripts::{AGENCY_TRANSCRIPT, FIRST_HISTORY, FIRST_TRANSCRIPT};
use crate::{FailsOnce, Forged};
use sj_base::{MemSink, NoMemory};
use sj_lane::{MemLinks, RingLinks};
use sj_work::NoGate;
use std::alloc::Global;
use std::process::Abort;
use std::test::Fail;
use std::thread::Threads;

#[test]
fn links_that_fail_once(rt: HostRuntime) -> Result<(), Fail> {
    let rows = [
        ("sim", 0, FIRST_TRANSCRIPT),
        ("run", 8, "link fault\n"),
        ("run", 0, FIRST_TRANSCRIPT),
        ("run", 0, FIRST_TRANSCRIPT),
    ];
    let mut links = FailsOnce::new();
    for (word, status, text) in rows {
        let wanted = (status, text.as_bytes());
        expect_over(
            &rt,
            rt.alloc(),
            &[word],
            FIRST.as_bytes(),
            &mut links,
            wanted,
        )?;
    }
    Ok(())
}

const DAMAGED: &str =
    "damaged entry 3 logged 2 b from a carry 0.1 0 0 0 int 6 due 2 b from a carry 0.1 0 0 0 int 5\n";

// The words of a run, its status and its text. Without a look the second party sees no frame.
const FORGED: [(&[&str], u8, &str); 4] = [
    (&["run"], 9, DAMAGED),
    (&["run", "--log"], 9, DAMAGED),
    (&["run", "--looks", "1"], 9, DAMAGED),
    (&["run", "--looks", "0"], 0, FIRST_TRANSCRIPT),
];

// The same where the frame is an Open.
const OPENED: &str =
    "damaged entry 3 logged 2 b from a open 64 due 2 b from a carry 0.1 0 0 0 int 5\n";

#[test]
fn an_open_that_nobody_sent(rt: HostRuntime) -> Result<(), Fail> {
    for words in [["run"].as_slice(), &["run", "--log"]] {
        let mut links = Forged::open();
        let wanted = (9, OPENED.as_bytes());
        expect_over(&rt, rt.alloc(), words, FIRST.as_bytes(), &mut links, wanted)?;
    }
    Ok(())
}

#[test]
fn a_carry_that_nobody_sent(rt: HostRuntime) -> Result<(), Fail> {
    for (words, status, text) in FORGED {
        let wanted = (status, text.as_bytes());
        expect_over(
            &rt,
            rt.alloc(),
            words,
            FIRST.as_bytes(),
            &mut Forged::carry(),
            wanted,
        )?;
    }
    Ok(())
}

// What the words give where the read of that number fails.
fn failing_read<R: Threads + Sync>(
    rt: &R,
    alloc: Global,
    words: &[&str],
    file: &[u8],
    number: u64,
) -> Result<(u8, MemSink), NoMemory> {
    let mut src = source(alloc, file, &[number])?;
    let mut out = sink(alloc, &[])?;
    let mut links = RingLinks::new();
    let status = call(rt, alloc, words, &mut src, &mut out, &mut links, &NoGate)?;
    Ok((status, out))
}

// The command answers a read fault where any of so many reads fails.
fn expect_read_faults<R: Abort + Threads + Sync>(
    rt: &R,
    alloc: Global,
    command: &str,
    file: &[u8],
    many: u64,
) -> Result<(), Fail> {
    for number in 0..many {
        let (status, out) = failing_read(rt, alloc, &[command], file, number)?;
        assert_eq!(rt; out.text(), b"read fault\n".as_slice(), "{command}");
        assert_eq!(rt; status, 2, "{command} at {number}");
    }
    Ok(())
}

// A first read brings the agency, and a second one its end. A longest file comes in sixteen pieces,
// and after the seventeenth read none is made.
#[test]
fn each_read_fails(rt: HostRuntime) -> Result<(), Fail> {
    for command in ["check", "show", "sim", "run", "replay"] {
        expect_read_faults(&rt, rt.alloc(), command, AGENCY.as_bytes(), 2)?;
    }
    for (size, wanted) in [(65_536, 0), (65_537, 3)] {
        let mut file = Vec::from_slice(rt.alloc(), AGENCY.as_bytes())?;
        file.resize(size, b' ')?;
        expect_read_faults(&rt, rt.alloc(), "run", &file, 17)?;
        let (status, _) = failing_read(&rt, rt.alloc(), &["run"], &file, 17)?;
        assert_eq!(rt; status, wanted, "{size}");
    }
    Ok(())
}

#[test]
fn some_words_read_nothing(rt: HostRuntime) -> Result<(), Fail> {
    let rows: [(&[&str], u8); 4] = [
        (&[], 1),
        (&["fly"], 1),
        (&["make", "1"], 0),
        (&["big", "1"], 0),
    ];
    for (words, wanted) in rows {
        let (status, _) = failing_read(&rt, rt.alloc(), words, b"", 0)?;
        assert_eq!(rt; status, wanted, "{words:?}");
    }
    Ok(())
}

// Words, what they read, and the text of the answer, over lists.
const ANSWERS: [(&[&str], &str, &str); 12] = [
    (&["fly"], "", USAGE),
    (&["check"], AGENCY, "accepted parties 3 sessions 2\n"),
    (&["replay"], FIRST, "log L1 at 0\n"),
    (&["replay"], "%%log\n1 a local\n", "log L2 at 1\n"),
    (&["check"], "party\n", "syntax P1 at 2:1\n"),
    (&["run"], "party a { close x; }\n", "check C5 at 1\n"),
    (
        &["show"],
        "protocol p { begin }\n",
        "protocol p { begin }\ndual p { begin }\n",
    ),
    (
        &["sim"],
        OPPOSITE,
        "session 0 a x b y\nsession 1 a w b z\nparty a waits 0 0.0\nparty b waits 0 1.1\nblocked\n",
    ),
    (
        &["big", "1"],
        "",
        "big 1 parties 15 sessions 10 messages 25 steps 80\ndone\n",
    ),
    (&["sim"], AGENCY, AGENCY_TRANSCRIPT),
    (&["run"], AGENCY, AGENCY_TRANSCRIPT),
    (&["run", "--log"], FIRST, FIRST_HISTORY),
];

// Each write takes sixteen bytes of the text. Where one of them fails, those before it are written,
// and whatever the answer is, a write fault stands in its place.
fn expect_write_faults<R: Abort + Threads + Sync>(
    rt: &R,
    alloc: Global,
    words: &[&str],
    file: &[u8],
    whole: &[u8],
) -> Result<(), Fail> {
    let writes = whole.len().div_ceil(16);
    for number in 0..writes + 1 {
        let mut src = source(alloc, file, &[])?;
        let mut out = sink(alloc, &[number as u64])?;
        let mut links = MemLinks::new();
        let status = call(rt, alloc, words, &mut src, &mut out, &mut links, &NoGate)?;
        let front = whole.len().min(number.wrapping_mul(16));
        assert_eq!(rt; Some(out.text()), whole.get(..front), "{words:?}");
        assert_eq!(rt; status == 10, number < writes, "{words:?} at {number}");
    }
    Ok(())
}

#[test]
fn each_write_of_an_answer_fails(rt: HostRuntime) -> Result<(), Fail> {
    for (words, file, whole) in ANSWERS {
        expect_write_faults(&rt, rt.alloc(), words, file.as_bytes(), whole.as_bytes())?;
    }
    Ok(())
}

#[test]
fn each_write_of_a_replayed_log_fails(rt: HostRuntime) -> Result<(), Fail> {
    let (_, log) = FIRST_HISTORY.split_once("%%log\n").ok_or("no log")?;
    let source = joined(rt.alloc(), &[FIRST.as_bytes(), b"%%log\n", log.as_bytes()])?;
    let words = ["replay", "--log"];
    expect_write_faults(&rt, rt.alloc(), &words, &source, FIRST_HISTORY.as_bytes())
}
