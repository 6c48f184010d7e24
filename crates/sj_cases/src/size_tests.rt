//! Inputs of the most bytes that are read, and of one more.
use crate::calls::{expect_over, joined};
use crate::files::FIRST;
use crate::transcripts::FIRST_TRANSCRIPT;
use sj_lane::MemLinks;
use std::alloc::Global;
use std::process::Abort;
use std::test::Fail;
use std::thread::Threads;

// The most bytes of a source of `replay`.
const MOST: usize = 16_777_216;

const OVER: usize = 16_777_217;

// A command, what its input begins with, the bytes of that and of the blanks after it, what stands
// after these, the status and the text.
type Row<'a> = (&'a str, [&'a str; 2], usize, &'a str, u8, &'a str);

const NO_LOG: &str = "log L1 at 0\n";

const TOO_LARGE: &str = "too large\n";

const FILES: [Row; 7] = [
    ("run", [FIRST, ""], 65_536, "", 0, FIRST_TRANSCRIPT),
    ("run", [FIRST, ""], 65_537, "", 3, TOO_LARGE),
    (
        "replay",
        [FIRST, ""],
        65_535,
        "\n%%log\n",
        0,
        FIRST_TRANSCRIPT,
    ),
    ("replay", [FIRST, ""], 65_536, "\n%%log\n", 3, TOO_LARGE),
    ("replay", ["party\n", ""], 65_536, "\n%%log\n", 3, TOO_LARGE),
    // Without the line that parts it the source has no file.
    ("replay", [FIRST, ""], 65_535, "\n", 12, NO_LOG),
    ("replay", [FIRST, ""], 65_536, "\n", 12, NO_LOG),
];

const SOURCES: [Row; 4] = [
    ("replay", [FIRST, "%%log\n"], MOST, "", 12, "log L4 at 1\n"),
    ("replay", [FIRST, "%%log\n"], OVER, "", 3, TOO_LARGE),
    ("replay", [FIRST, ""], MOST, "", 12, NO_LOG),
    ("replay", [FIRST, ""], OVER, "", 3, TOO_LARGE),
];

// Each row is as it says, over lists.
fn expect_rows<R: Abort + Threads + Sync>(rt: &R, alloc: Global, rows: &[Row]) -> Result<(), Fail> {
    for (command, [file, log], size, rest, status, wanted) in rows {
        let mut bytes = joined(alloc, &[file.as_bytes(), log.as_bytes()])?;
        bytes.resize(*size, b' ')?;
        bytes.extend_from_slice(rest.as_bytes())?;
        let wanted = (*status, wanted.as_bytes());
        expect_over(rt, alloc, &[command], &bytes, &mut MemLinks::new(), wanted)?;
    }
    Ok(())
}

#[test]
fn a_file_may_have_65536_bytes(rt: HostRuntime) -> Result<(), Fail> {
    expect_rows(&rt, rt.alloc(), &FILES)
}

#[test]
fn a_source_of_replay_may_have_16777216_bytes(rt: HostRuntime) -> Result<(), Fail> {
    expect_rows(&rt, rt.alloc(), &SOURCES)
}
