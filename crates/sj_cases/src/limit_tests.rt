//! Files that come to a limit, and are too long to be written down.
use crate::calls::{answer, expect};
use crate::long_files::looping;
use std::test::Fail;

// Of a loop: its count, the steps in a turn, those after it, the status of the file and the end of its
// transcript.
const LOOPS: [(&str, usize, usize, u8, &str); 4] = [
    (
        "1000",
        0,
        0,
        0,
        "party a ended 1002\nparty b ended 1002\ndone\n",
    ),
    (
        "1001",
        0,
        0,
        0,
        "party a ended 1002\nparty b ended 1002\ndone\n",
    ),
    (
        "1000",
        8,
        998,
        0,
        "party a ended 10000\nparty b ended 1002\ndone\n",
    ),
    (
        "1000",
        8,
        999,
        7,
        "party a limit 10000\nparty b ended 1002\nlong\n",
    ),
];

#[test]
fn a_loop_has_a_thousand_turns_and_a_party_ten_thousand_steps(rt: HostRuntime) -> Result<(), Fail> {
    for (count, inside, behind, wanted, end) in LOOPS {
        let file = looping(rt.alloc(), count, inside, behind)?;
        let (status, out) = answer(&rt, rt.alloc(), &["sim"], &file)?;
        assert_eq!(rt; status, wanted, "{count} {behind}");
        assert!(rt; out.text().ends_with(end.as_bytes()), "{count} {behind}");
        assert_eq!(rt; lines_with(out.text(), " more"), 1000, "{count} {behind}");
        assert_eq!(rt; lines_with(out.text(), " stop"), 1, "{count} {behind}");
        expect(&rt, rt.alloc(), &["run"], &file, (status, out.text()))?;
    }
    Ok(())
}

// How many lines end so.
fn lines_with(text: &[u8], end: &str) -> usize {
    match std::str::from_utf8(text) {
        Ok(text) => text.lines().filter(|line| line.ends_with(end)).count(),
        Err(_) => 0,
    }
}
