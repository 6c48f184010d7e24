//! The names of a run at the server.
ghost use Rattle.std.specs.Prelude.{◌≡◌, ◌++◌, IfOk, OnOk};
ghost use Rattle.sj_resp.specs.Spelling.{word_text};
ghost use Rattle.sj_streams.specs.Keys.{file_key_text, id_text, log_key_text};

use sj_base::NoMemory;
use sj_resp::put_word;
use sj_text::{put, put_number};
use std::alloc::Global;

/// Under which name the run's file stands.
#[tactic(auto, unfolding(crate::specs::Keys::file_key_text))]
pub fn file_key(alloc: Global, run: &[u8]) -> Result<Vec<u8>, NoMemory>
    ensures { IfOk result (λ key. key.items ≡ file_key_text run.now) }
{
    let mut key = Vec::new(alloc);
    put(&mut key, b"sj:{")?;
    put(&mut key, run)?;
    put(&mut key, b"}:file")?;
    Ok(key)
}

/// Under which name the party's stream stands.
#[tactic(auto, unfolding(crate::specs::Keys::log_key_text))]
pub fn log_key(alloc: Global, run: &[u8], party: u16) -> Result<Vec<u8>, NoMemory>
    ensures { IfOk result (λ key. key.items ≡ log_key_text run.now party) }
{
    let mut key = Vec::new(alloc);
    put(&mut key, b"sj:{")?;
    put(&mut key, run)?;
    put(&mut key, b"}:log:")?;
    put_number(&mut key, u64::from(party))?;
    Ok(key)
}

/// The name of the entry of that number.
#[tactic(auto, unfolding(crate::specs::Keys::id_text))]
pub(crate) fn id(alloc: Global, number: u64) -> Result<Vec<u8>, NoMemory>
    ensures { IfOk result (λ text. text.items ≡ id_text number) }
{
    let mut text = Vec::new(alloc);
    put_number(&mut text, number)?;
    put(&mut text, b"-0")?;
    Ok(text)
}

/// Appends that name as a word of a command.
pub(crate) fn put_id(out: &mut Vec<u8>, number: u64) -> Result<(), NoMemory>
    ensures { OnOk result (out.new.items ≡ out.old.items ++ word_text (id_text number)) }
{
    let text = id(*out.allocator(), number)?;
    put_word(out, &text)
}
