//! Words that are nearly reserved ones.

/// Whether one differs from the other by at most one letter, by two neighbours that changed places,
/// or in capitals alone.
pub(crate) fn is_near(word: &[u8], other: &[u8]) -> bool {
    if is_in_other_case(word, other) {
        return true;
    }
    let front = common_front(word, other);
    let word = word.get(front..).unwrap_or(b"");
    let rest = other.get(front..).unwrap_or(b"");
    let back = common_back(word, rest);
    let left = (
        word.len().saturating_sub(back),
        rest.len().saturating_sub(back),
    );
    match left {
        (2, 2) => word.get(0) == rest.get(1) && word.get(1) == rest.get(0),
        (0, 1) | (1, 0) | (1, 1) => other.len() > 2,
        _ => false,
    }
}

// Whether they are one word but for capitals.
fn is_in_other_case(word: &[u8], other: &[u8]) -> bool {
    word.len() == other.len()
        && word
            .iter()
            .zip(other.iter())
            .all(|(a, b)| small(*a) == small(*b))
}

fn small(b: u8) -> u8 {
    if b >= b'A' && b <= b'Z' {
        b.saturating_add(32)
    } else {
        b
    }
}

fn common_front(one: &[u8], other: &[u8]) -> usize {
    let mut n = 0usize;
    for (a, b) in one.iter().zip(other.iter()) {
        if a != b {
            break;
        }
        n = n.saturating_add(1);
    }
    n
}

fn common_back(one: &[u8], other: &[u8]) -> usize {
    let mut n = 0usize;
    for (a, b) in one.iter().rev().zip(other.iter().rev()) {
        if a != b {
            break;
        }
        n = n.saturating_add(1);
    }
    n
}

// Words of other languages, and what they are here.
const OTHERS: [(&[u8], &[u8]); 14] = [
    (b"bool", b"boolean"),
    (b"str", b"String"),
    (b"text", b"String"),
    (b"integer", b"int"),
    (b"number", b"int"),
    (b"receive", b"recv"),
    (b"var", b"let"),
    (b"while", b"outwhile"),
    (b"for", b"outwhile"),
    (b"loop", b"outwhile"),
    (b"select", b"outbranch"),
    (b"switch", b"inbranch"),
    (b"branch", b"inbranch"),
    (b"case", b"inbranch"),
];

/// Whether other languages have that word for this one.
pub(crate) fn is_elsewhere(word: &[u8], ours: &[u8]) -> bool {
    for (theirs, here) in OTHERS {
        if word == theirs && ours == here {
            return true;
        }
    }
    false
}
