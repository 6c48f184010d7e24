//! The words after the program's name.
ghost use Rattle.std.specs.Prelude.{◌≡◌, bytes_eq, map, string_bytes};
ghost use Rattle.std.specs.List.{list_any};
ghost use Rattle.sj_explain.specs.Words.{are_known, is_known};

/// Whether each of them is one of the program.
pub(crate) fn are_known(words: &[String]) -> bool
    ensures { result ≡ are_known (map string_bytes words.now) }
{
    match words.split_first() {
        Some((word, rest)) => is_known(word.as_bytes()) && are_known(rest),
        None => true,
    }
}

fn is_known(word: &[u8]) -> bool
    ensures { result ≡ is_known word.now }
{
    word == b"--svg".as_slice() || word == b"--colour".as_slice()
}

/// Whether one of them is that word.
pub(crate) fn has_word(words: &[String], wanted: &[u8]) -> bool
    ensures { result ≡ list_any (λ w. bytes_eq w wanted.now) (map string_bytes words.now) }
{
    match words.split_first() {
        Some((word, rest)) => word.as_bytes() == wanted || has_word(rest, wanted),
        None => false,
    }
}
