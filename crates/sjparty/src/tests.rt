//! Words, and what they ask for.
use crate::words::words_in;
use std::alloc::Global;
use std::test::Fail;

fn server_and_wait(alloc: Global, words: &[&str]) -> Result<Option<(String, u64)>, Fail> {
    let mut owned = Vec::new(alloc);
    for word in words {
        owned.push(String::from_str(alloc, word)?)?;
    }
    Ok(words_in(alloc, &owned)?.map(|words| (words.server, words.wait)))
}

const KNOWN: [(&[&str], &str, u64); 3] = [
    (&["a", "--run", "r"], "127.0.0.1:6379", 10),
    (&["a", "--run", "r", "--wait", "3"], "127.0.0.1:6379", 3),
    (&["--server=far:1", "--run=r", "a"], "far:1", 10),
];

const UNKNOWN: [&[&str]; 6] = [
    &[],
    &["a"],
    &["--run", "r"],
    &["a", "b", "--run", "r"],
    &["a", "--run", "r", "--wait", "0"],
    &["a", "--run", "r", "--tries", "-1"],
];

#[test]
fn known_words(rt: HostRuntime) -> Result<(), Fail> {
    for (words, server, wait) in KNOWN {
        match server_and_wait(rt.alloc(), words)? {
            Some((found, time)) => {
                assert_eq!(rt; found.as_str(), server, "{words:?}");
                assert_eq!(rt; time, wait, "{words:?}");
            }
            None => assert!(rt; false, "{words:?}"),
        }
    }
    Ok(())
}

#[test]
fn unknown_words(rt: HostRuntime) -> Result<(), Fail> {
    for words in UNKNOWN {
        assert!(rt; server_and_wait(rt.alloc(), words)?.is_none(), "{words:?}");
    }
    Ok(())
}
