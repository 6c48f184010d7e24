//! The history of a run over lists, where nothing comes to another party before the drain: it is that
//! of a drain from the start on. Over rings it is another one from run to run.
use crate::calls::expect_over;
use crate::files::{FIRST, HANDED_ON, TOLD, UNUSED};
use crate::transcripts::{FIRST_HISTORY, HANDED_ON_HISTORY, TOLD_HISTORY, UNUSED_HISTORY};
use sj_lane::MemLinks;
use std::test::Fail;

#[test]
fn a_run_over_lists_has_the_history_of_a_drain(rt: HostRuntime) -> Result<(), Fail> {
    let rows = [
        (FIRST, FIRST_HISTORY),
        (HANDED_ON, HANDED_ON_HISTORY),
        (UNUSED, UNUSED_HISTORY),
        (TOLD, TOLD_HISTORY),
    ];
    for (file, wanted) in rows {
        for looks in ["0", "1", "1000"] {
            let words = ["run", "--log", "--looks", looks];
            let wanted = (0, wanted.as_bytes());
            let mut links = MemLinks::new();
            expect_over(&rt, rt.alloc(), &words, file.as_bytes(), &mut links, wanted)?;
        }
    }
    Ok(())
}
