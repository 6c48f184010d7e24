//! Files that come to a limit.
use std::alloc::Global;
use std::test::Fail;

// A party with a loop of that many turns, each with some steps, and some steps after it.
pub(crate) fn looping(
    alloc: Global,
    count: &str,
    inside: usize,
    behind: usize,
) -> Result<Vec<u8>, Fail> {
    let mut text = Vec::new(alloc);
    text.extend_from_slice(b"protocol p { begin.![]* }\nprotocol q { begin.?[]* }\n")?;
    text.extend_from_slice(b"party a { outwhile x ")?;
    text.extend_from_slice(count.as_bytes())?;
    text.extend_from_slice(b" { ")?;
    for _ in 0..inside {
        text.extend_from_slice(b"let n = 1; ")?;
    }
    text.extend_from_slice(b"} ")?;
    for _ in 0..behind {
        text.extend_from_slice(b"let n = 1; ")?;
    }
    text.extend_from_slice(b"close x; }\nparty b { inwhile y { } close y; }\n")?;
    text.extend_from_slice(b"connect a x p to b y q;\n")?;
    Ok(text)
}

const ALONG: &str = "protocol p { begin.!<int> }\n\
    protocol q { begin.?(int) }\n\
    protocol g { begin.!<?(int)> }\n\
    protocol h { begin.?(?(int)) }\n\
    party a { send x 7; close x; }\n\
    party b { delegate z y; close z; }\n\
    party p { recv u y session q; recv y n int; close y; close u; }\n";

// An end goes from b through all parties to p, which takes what a has sent.
pub(crate) fn handed_along(alloc: Global) -> Result<Vec<u8>, Fail> {
    let names = b"bcdefghijklmnop";
    let mut text = Vec::from_slice(alloc, ALONG.as_bytes())?;
    for at in 1..14 {
        text.extend_from_slice(b"party ")?;
        text.push(names[at])?;
        text.extend_from_slice(b" { recv u y session q; delegate z y; close z; close u; }\n")?;
    }
    text.extend_from_slice(b"connect a x p to b y q;\n")?;
    for at in 0..14 {
        text.extend_from_slice(b"connect ")?;
        text.push(names[at])?;
        text.extend_from_slice(b" z g to ")?;
        text.push(names[at + 1])?;
        text.extend_from_slice(b" u h;\n")?;
    }
    Ok(text)
}
