//! Talks whose lines are no text, are long, or are many.
use crate::calls::{expect_over, joined};
use crate::files::FIRST;
use sj_lane::MemLinks;
use std::alloc::Global;
use std::test::Fail;

const MARK: &[u8] = b"%%talk\n";

#[test]
fn lines_may_have_any_bytes(rt: HostRuntime) -> Result<(), Fail> {
    let lines: &[u8] = b"\xff\x00\x80\n \n\nsend x 5\r\n\xc3\xa4\nsend x 5\nclose x";
    let bytes = joined(rt.alloc(), &[FIRST.as_bytes(), MARK, lines])?;
    let text: &[u8] =
        b"refused 1 G1\nrefused 2 G1\nrefused 3 G1\nrefused 4 G1\nrefused 5 G1\nok\nok\ndone\n";
    expect_over(
        &rt,
        rt.alloc(),
        &["talk", "0"],
        &bytes,
        &mut MemLinks::new(),
        (0, text),
    )
}

#[test]
fn the_line_that_parts_has_its_newline(rt: HostRuntime) -> Result<(), Fail> {
    let bytes = joined(rt.alloc(), &[FIRST.as_bytes(), b"%%talk"])?;
    let text: &[u8] = b"talk L1 at 0\n";
    expect_over(
        &rt,
        rt.alloc(),
        &["talk", "0"],
        &bytes,
        &mut MemLinks::new(),
        (12, text),
    )
}

// That text so many times after one, and another after it.
fn repeated(
    alloc: Global,
    first: &[u8],
    text: &[u8],
    times: usize,
    last: &[u8],
) -> Result<Vec<u8>, Fail> {
    let mut bytes = Vec::from_slice(alloc, first)?;
    for _ in 0..times {
        bytes.extend_from_slice(text)?;
    }
    bytes.extend_from_slice(last)?;
    Ok(bytes)
}

#[test]
fn a_line_may_have_65536_bytes(rt: HostRuntime) -> Result<(), Fail> {
    let alloc = rt.alloc();
    let file = joined(alloc, &[FIRST.as_bytes(), MARK])?;
    let begun = repeated(alloc, &file, b"\x80", 65_536, b"\nsend x \"")?;
    let bytes = repeated(alloc, &begun, b"a", 65_536, b"\"\nsend x 5\nclose x\n")?;
    let text: &[u8] = b"refused 1 G1\nrefused 2 G1\nok\nok\ndone\n";
    expect_over(
        &rt,
        alloc,
        &["talk", "0"],
        &bytes,
        &mut MemLinks::new(),
        (0, text),
    )
}

// The first party is played. The other one waits for its second session, and takes nothing.
const WAITING: &str = "protocol p { begin.![!<int>]* }\n\
    protocol q { begin.?[?(int)]* }\n\
    protocol r { begin.!<int> }\n\
    protocol s { begin.?(int) }\n\
    party a { outwhile x 1 { send x 1; } close x; send w 1; close w; }\n\
    party b { recv v n int; inwhile y { recv y k int; } close y; close v; }\n\
    connect a x p to b y q;\n\
    connect a w r to b v s;\n\
    %%talk\n";

#[test]
fn ten_thousand_lines_are_accepted(rt: HostRuntime) -> Result<(), Fail> {
    let alloc = rt.alloc();
    let lines: &[u8] = b"more x\nsend x 1\n";
    let bytes = repeated(
        alloc,
        WAITING.as_bytes(),
        lines,
        5_000,
        b"more x\nclose x\n",
    )?;
    let last: &[u8] = b"refused 10001 G6\nrefused 10002 G3\nblocked\n";
    let text = repeated(alloc, b"", b"ok\n", 10_000, last)?;
    expect_over(
        &rt,
        alloc,
        &["talk", "0"],
        &bytes,
        &mut MemLinks::new(),
        (6, text.as_slice()),
    )
}
