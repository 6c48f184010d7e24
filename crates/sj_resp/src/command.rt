//! Commands as bytes: an array of words, each with its length before it.
ghost use Rattle.std.specs.Prelude.{◌≡◌, ◌++◌, OnErr, OnOk};
ghost use Rattle.sj_resp.specs.Spelling.{head_text, word_text};
ghost use Rattle.sj_text.specs.Cut.{IsCutShort};

use sj_base::NoMemory;
use sj_text::{put, put_number};

/// Appends the head of a command of so many words. The caller puts the words after it. Out of
/// memory, a prefix of it is appended.
#[tactic(auto, unfolding(crate::specs::Spelling::head_text), using(sj_text::proofs::CutLemmas::cuts))]
pub fn put_command(out: &mut Vec<u8>, words: u32) -> Result<(), NoMemory>
    ensures ok { OnOk result (out.new.items ≡ out.old.items ++ head_text words) }
    ensures err { OnErr result (IsCutShort out.old.items (head_text words) out.new.items) }
{
    put(out, b"*")?;
    put_number(out, u64::from(words))?;
    put(out, b"\r\n")
}

/// Appends a word of a command. It may have any bytes. Out of memory, a prefix of it is appended.
#[tactic(auto, unfolding(crate::specs::Spelling::word_text), using(sj_text::proofs::CutLemmas::cuts))]
pub fn put_word(out: &mut Vec<u8>, word: &[u8]) -> Result<(), NoMemory>
    ensures ok { OnOk result (out.new.items ≡ out.old.items ++ word_text word.now) }
    ensures err { OnErr result (IsCutShort out.old.items (word_text word.now) out.new.items) }
{
    put(out, b"$")?;
    put_number(out, word.len() as u64)?;
    put(out, b"\r\n")?;
    put(out, word)?;
    put(out, b"\r\n")
}
