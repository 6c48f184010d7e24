//! What is said of small files, and of words that are none.

use sj_base::{MemSink, MemSource};
use sj_explain::{Looks, explain, why};
use std::test::Fail;

const LOOKS: Looks = Looks {
    drawn: false,
    coloured: false,
};

// One message is sent twice, and taken once.
const TWICE: &[u8] = b"protocol p { begin.!<int> }
protocol q { begin.?(int) }
party a { send x 5; send x 6; close x; }
party b { recv y n int; close y; }
connect a x p to b y q;
";

const REASONS: &[u8] = b"check C6 at 3
other action: the place begins with another action, or is empty

  3 | party a { send x 5; send x 6; close x; }
    |                          ^

there: ahead of x is nothing; this statement wants `!<..>` first
mend: do what the place begins with, or put the item into both protocols
";

#[test]
fn the_second_send_has_nothing_ahead(rt: HostRuntime) -> Result<(), Fail> {
    let told = why(rt.alloc(), LOOKS, TWICE)?;
    assert_eq!(rt; told.text.as_slice(), REASONS);
    assert_eq!(rt; told.answer.status(), 5);
    Ok(())
}

#[test]
fn an_empty_file_is_accepted(rt: HostRuntime) -> Result<(), Fail> {
    let told = why(rt.alloc(), LOOKS, b"")?;
    let text = b"accepted parties 0 sessions 0\n\nends done: each party comes to its end\n";
    assert_eq!(rt; told.text.as_slice(), text.as_slice());
    Ok(())
}

#[test]
fn words_that_are_none_are_told(rt: HostRuntime) -> Result<(), Fail> {
    let alloc = rt.alloc();
    let mut words = Vec::new(alloc);
    words.push(String::from_str(alloc, "--pdf")?)?;
    let mut src = MemSource::new(Vec::from_slice(alloc, TWICE)?, Vec::new(alloc));
    let mut out = MemSink::new(alloc, 1000, Vec::new(alloc))?;
    let status = explain(alloc, &words, &mut src, &mut out);
    assert_eq!(rt; out.text(), b"usage: sjwhy [--svg] [--colour]\n".as_slice());
    assert_eq!(rt; status, 1);
    Ok(())
}
