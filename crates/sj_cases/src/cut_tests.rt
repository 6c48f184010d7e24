//! Inputs that aren't whole lines of printable bytes.
use crate::calls::{expect, joined};
use crate::files::FIRST;
use crate::transcripts::FIRST_TRANSCRIPT;
use std::test::Fail;

// A command, what its input begins with, what stands after that, the status and the text.
type Row<'a> = (&'a str, &'a str, &'a [u8], u8, &'a str);

const ROWS: [Row; 8] = [
    ("run", "", b"\x80", 4, "syntax P2 at 1:1\n"),
    (
        "run",
        "protocol p { begin.!<",
        b"",
        4,
        "syntax P1 at 1:22\n",
    ),
    (
        "replay",
        "party a { send x \"abc;\n",
        b"%%log\n1",
        4,
        "syntax P5 at 1:18\n",
    ),
    ("replay", FIRST, b"%%log", 12, "log L1 at 0\n"),
    ("replay", FIRST, b"%%log\r\n", 12, "log L1 at 0\n"),
    ("replay", FIRST, b"%%log\n1 a local", 12, "log L4 at 1\n"),
    (
        "replay",
        FIRST,
        b"%%log\n9 a local\n1 a local\n1",
        12,
        "log L4 at 3\n",
    ),
    ("run", FIRST, b"\r// five\r\n", 0, FIRST_TRANSCRIPT),
];

#[test]
fn a_file_or_a_log_without_its_last_newline_is_cut(rt: HostRuntime) -> Result<(), Fail> {
    for (command, head, rest, status, wanted) in ROWS {
        let bytes = joined(rt.alloc(), &[head.as_bytes(), rest])?;
        let wanted = (status, wanted.as_bytes());
        expect(&rt, rt.alloc(), &[command], &bytes, wanted)?;
    }
    Ok(())
}
