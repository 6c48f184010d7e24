//! Files that are run, and whose printed logs are replayed by the command.
use crate::calls::{answer, answer_over, joined};
use crate::files::{
    AGENCY, AND_BACK, BACK_AGAIN, CROSSING, EMPTY, FIRST, HANDED_ON, MOVED_TWICE, OPENED, OPPOSITE,
    TO_ITSELF, TO_THE_PEER, TOLD, UNUSED,
};
use crate::long_files::{handed_along, looping};
use sj_lane::{Links, MemLinks, RingLinks};
use std::alloc::Global;
use std::process::Abort;
use std::test::Fail;
use std::thread::Threads;

// A file, a piece of it, and what stands there instead.
const FILES: [(&str, &str, &str); 18] = [
    ("", "", ""),
    (FIRST, "", ""),
    (FIRST, "5", "9223372036854775807 + 1"),
    (EMPTY, "", ""),
    (AGENCY, "", ""),
    (AGENCY, "<= 400", "<= 200"),
    (HANDED_ON, "", ""),
    (UNUSED, "", ""),
    (TOLD, "", ""),
    (CROSSING, "", ""),
    (MOVED_TWICE, "", ""),
    (BACK_AGAIN, "", ""),
    (TO_THE_PEER, "", ""),
    (TO_ITSELF, "", ""),
    (OPPOSITE, "", ""),
    (AND_BACK, "", ""),
    (AND_BACK, "50", "51"),
    (OPENED, "", ""),
];

// What `run --log` prints of the file over these links, `replay --log` prints of the file and that log,
// with the same status: nothing is left to drain. `replay` prints the transcript alone.
fn expect_again<R: Abort + Threads + Sync, L: Links>(
    rt: &R,
    alloc: Global,
    looks: &str,
    file: &[u8],
    links: &mut L,
) -> Result<(), Fail> {
    let words = ["run", "--log", "--looks", looks];
    let (status, out) = answer_over(rt, alloc, &words, file, links)?;
    let Ok(told) = std::str::from_utf8(out.text()) else {
        return Err(Fail::from("no text"));
    };
    // The mark stands alone on its line, and what stands before it is no log.
    let mark = if told.contains("%%log2\n") {
        "%%log2\n"
    } else {
        "%%log\n"
    };
    let (transcript, log) = told.split_once(mark).ok_or("no log")?;
    let source = joined(alloc, &[file, mark.as_bytes(), log.as_bytes()])?;
    let (again, whole) = answer(rt, alloc, &["replay", "--log"], &source)?;
    assert_eq!(rt; whole.text(), out.text(), "{looks} looks");
    assert_eq!(rt; again, status, "{looks} looks");
    let (again, front) = answer(rt, alloc, &["replay"], &source)?;
    assert_eq!(rt; front.text(), transcript.as_bytes(), "{looks} looks");
    assert_eq!(rt; again, status, "{looks} looks");
    Ok(())
}

// Over rings and over lists it is so.
fn expect_by_both<R: Abort + Threads + Sync>(
    rt: &R,
    alloc: Global,
    looks: &str,
    file: &[u8],
) -> Result<(), Fail> {
    expect_again(rt, alloc, looks, file, &mut RingLinks::new())?;
    expect_again(rt, alloc, looks, file, &mut MemLinks::new())
}

#[test]
fn a_log_that_is_printed_is_replayed(rt: HostRuntime) -> Result<(), Fail> {
    for (file, old, new) in FILES {
        let (before, behind) = file.split_once(old).ok_or("no such piece")?;
        let pieces = [before.as_bytes(), new.as_bytes(), behind.as_bytes()];
        let file = joined(rt.alloc(), &pieces)?;
        for looks in ["0", "1", "1000"] {
            expect_by_both(&rt, rt.alloc(), looks, &file)?;
        }
    }
    Ok(())
}

#[test]
fn the_log_of_a_long_loop_is_replayed(rt: HostRuntime) -> Result<(), Fail> {
    let rows = [
        ("0", 0, 0),
        ("1000", 0, 0),
        ("1001", 0, 0),
        ("1000", 8, 998),
        ("1000", 8, 999),
    ];
    for (count, inside, behind) in rows {
        let file = looping(rt.alloc(), count, inside, behind)?;
        let mut links = RingLinks::new();
        expect_again(&rt, rt.alloc(), "1000", &file, &mut links)?;
    }
    Ok(())
}

#[test]
fn the_log_of_a_generated_or_longest_file_is_replayed(rt: HostRuntime) -> Result<(), Fail> {
    let (_, made) = answer(&rt, rt.alloc(), &["make", "1"], b"")?;
    let mut longest = joined(rt.alloc(), &[FIRST.as_bytes()])?;
    longest.resize(65_535, b' ')?;
    longest.push(b'\n')?;
    let along = handed_along(rt.alloc())?;
    for file in [made.text(), &longest, &along] {
        expect_by_both(&rt, rt.alloc(), "1000", file)?;
    }
    Ok(())
}
