//! Words, and what they ask for.
use crate::words::words_in;
use std::alloc::Global;
use std::test::Fail;

fn party_and_patience(alloc: Global, words: &[&str]) -> Result<Option<(String, u32)>, Fail> {
    let mut owned = Vec::new(alloc);
    for word in words {
        owned.push(String::from_str(alloc, word)?)?;
    }
    Ok(words_in(alloc, &owned)?.map(|words| (words.party, words.patience)))
}

const KNOWN: [(&[&str], &str, u32); 3] = [
    (&["a", "--local"], "a", 1_000),
    (&["--local", "--patience", "3", "0"], "0", 3),
    (&["--patience=0", "a", "--local"], "a", 0),
];

const REMOTE: [(&[&str], &str, &str, u64); 3] = [
    (&["a", "--run", "visit"], "visit", "127.0.0.1:6379", 10),
    (
        &["a", "--run=r", "--server", "h:1", "--wait", "3"],
        "r",
        "h:1",
        3,
    ),
    (
        &["a", "--patience", "5", "--run", "r", "--user", "u"],
        "r",
        "127.0.0.1:6379",
        10,
    ),
];

const UNKNOWN: [&[&str]; 9] = [
    &[],
    &["a", "--local", "--run", "r"],
    &["a", "--local", "--wait", "3"],
    &["a", "--server", "h:1"],
    &["a", "--run", "r", "--wait", "0"],
    &["a"],
    &["--local"],
    &["a", "b", "--local"],
    &["a", "--local", "--patience", "-1"],
];

#[test]
fn known_words(rt: HostRuntime) -> Result<(), Fail> {
    for (words, party, patience) in KNOWN {
        match party_and_patience(rt.alloc(), words)? {
            Some((found, tries)) => {
                assert_eq!(rt; found.as_str(), party, "{words:?}");
                assert_eq!(rt; tries, patience, "{words:?}");
            }
            None => assert!(rt; false, "{words:?}"),
        }
    }
    Ok(())
}

#[test]
fn unknown_words(rt: HostRuntime) -> Result<(), Fail> {
    for words in UNKNOWN {
        assert!(rt;
            party_and_patience(rt.alloc(), words)?.is_none(),
            "{words:?}"
        );
    }
    Ok(())
}

#[test]
fn words_of_a_server(rt: HostRuntime) -> Result<(), Fail> {
    for (words, run, server, wait) in REMOTE {
        let mut owned = Vec::new(rt.alloc());
        for word in words {
            owned.push(String::from_str(rt.alloc(), word)?)?;
        }
        match words_in(rt.alloc(), &owned)?.and_then(|found| found.remote) {
            Some(remote) => {
                assert_eq!(rt; remote.run.as_str(), run, "{words:?}");
                assert_eq!(rt; remote.server.as_str(), server, "{words:?}");
                assert_eq!(rt; remote.wait, wait, "{words:?}");
            }
            None => assert!(rt; false, "{words:?}"),
        }
    }
    Ok(())
}
