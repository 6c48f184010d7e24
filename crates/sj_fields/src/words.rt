//! The words of a line, one after another.
ghost use Rattle.std.specs.Prelude.{◌≡◌, ◌==◌, ◌≤◌, length};
ghost use Rattle.std.specs.List.{position_or_len};
ghost use Rattle.std.specs.Option.{option_copied};
ghost use Rattle.sj_fields.specs.Fields.{rest, word, words_in, words_left, words_text};

use std::marker::Model;

/// The position of the first such byte, or the length where there is none.
pub fn first_at(byte: u8, bytes: &[u8]) -> usize
    ensures first { result ≡ position_or_len (λ b. b == byte) bytes.now }
    ensures within { result ≤ length bytes.now }
{
    let mut i = 0;
    while i < bytes.len() && bytes[i] != byte {
        i += 1;
    }
    i
}

// The first word, and what is left after the space that ends it.
#[tactic(auto, using(crate::proofs::WordLemmas::parting))]
fn cut(line: &[u8]) -> (&[u8], Option<&[u8]>)
    ensures word { result.0.now ≡ word (words_in line.now) }
    ensures rest { words_left (option_copied result.1) ≡ rest (words_in line.now) }
{
    let end = first_at(b' ', line);
    if end < line.len() {
        (&line[..end], Some(&line[end + 1..]))
    } else {
        (line, None)
    }
}

/// The words that are left of a line.
#[derive(Drop)]
pub struct Fields<'a> {
    left: Option<&'a [u8]>,
}

impl<'a> Model for Fields<'a> {
    ghost use Rattle.std.specs.Prelude.{ℕ, List};
    ghost use Rattle.std.specs.Option.{option_copied};
    ghost use Rattle.sj_fields.specs.Fields.{words_left};

    ghost Value = { List (List ℕ) };

    ghost view = { λ f. words_left (option_copied f.left) };
}

impl<'a> Fields<'a> {
    /// All words of a line.
    pub fn of(line: &'a [u8]) -> Fields<'a>
        ensures { result ≡ words_in line.now }
    {
        Fields { left: Some(line) }
    }

    /// The next word, and an empty one where none is left.
    pub fn next(&mut self) -> &'a [u8]
        ensures word { result.now ≡ word self.old }
        ensures rest { self.new ≡ rest self.old }
    {
        match self.left {
            Some(line) => {
                let (word, left) = cut(line);
                self.left = left;
                word
            }
            None => &[],
        }
    }

    /// What is left of the line, with the spaces in it.
    #[tactic(auto, using(crate::proofs::WordLemmas::parting))]
    pub fn all(&self) -> &'a [u8]
        ensures { result.now ≡ words_text self.now }
    {
        match self.left {
            Some(bytes) => bytes,
            None => &[],
        }
    }

    /// Whether no word is left.
    #[tactic(auto, using(crate::proofs::WordLemmas::parting))]
    pub fn is_empty(&self) -> bool
        ensures { result ≡ (length self.now == 0) }
    {
        self.left.is_none()
    }
}
