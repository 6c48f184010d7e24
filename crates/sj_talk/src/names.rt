//! Ends under names, and tables of names and texts.
ghost use Rattle.std.specs.Prelude.{◌≡◌, IfOk, OnOk, OnErr, None, option_and_then};
ghost use Rattle.sj_lang.specs.Words.{first_index};
ghost use Rattle.sj_talk.specs.Names.{end_named, ends_without, label_if, number_in, once, with_word};
ghost use Rattle.sj_talk.specs.Play.{ends_at};

use sj_base::{EndId, NoMemory};
use sj_lang::Words;
use std::alloc::Global;

/// An end under its name.
#[derive(Drop)]
pub struct Bound {
    pub name: Vec<u8>,
    pub end: EndId,
}

/// The end under the name.
pub fn end_named(ends: &[Bound], name: &[u8]) -> Option<EndId>
    ensures { result ≡ end_named (ends_at ends.now) name.now }
{
    for bound in ends {
        if bound.name.as_slice() == name {
            return Some(bound.end);
        }
    }
    None
}

/// Frees a name.
pub fn unbind(ends: &mut Vec<Bound>, name: &[u8])
    ensures { ends_at ends.new.items ≡ ends_without (ends_at ends.old.items) name.now }
{
    ends.retain(|bound| bound.name.as_slice() != name);
}

// The number at which the word stands.
fn index(words: &Words, word: &[u8]) -> Option<usize>
    ensures { result ≡ first_index word.now words.now }
{
    words.find(word)
}

/// The number of the word; none where it isn't in the table, or comes too late to be a label.
pub fn label_number(words: &Words, word: &[u8]) -> Option<u16>
    ensures { result ≡ option_and_then label_if (first_index word.now words.now) }
{
    match index(words, word) {
        Some(n) if n <= 65_535 => Some(n as u16),
        _ => None,
    }
}

/// The number of the word, which is put after the others where it isn't there.
pub fn added(words: &mut Words, word: &[u8]) -> Result<usize, NoMemory>
    ensures number { IfOk result (λ n. n ≡ number_in words.old word.now) }
    ensures ok { OnOk result (words.new ≡ with_word words.old word.now) }
    ensures err { OnErr result (words.new ≡ words.old) }
{
    words.add(word)
}

/// The words, each once.
pub fn once(alloc: Global, words: &Words) -> Result<Words, NoMemory>
    ensures { IfOk result (λ ws. ws ≡ once words.now) }
{
    let mut out = Words::new(alloc);
    for n in 0..usize::MAX {
        let Some(word) = words.get(n) else {
            return Ok(out);
        };
        let _ = added(&mut out, word)?;
    }
    // So many words want more memory than there is.
    Err(NoMemory)
}
