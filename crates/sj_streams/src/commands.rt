//! The commands of a party.
ghost use Rattle.std.specs.Prelude.{◌≡◌, ◌+◌, ◌*◌, ◌<◌, ◌^◌, ◌++◌, decimal, length, map, IfSome, OnOk};
ghost use Rattle.std.specs.List.{flat_map};
ghost use Rattle.sj_resp.specs.Spelling.{command_text, word_text};
ghost use Rattle.sj_streams.specs.Commands.{add_words, block_words, get_words, read_words, share_words};
ghost use Rattle.sj_streams.specs.Keys.{id_text};
ghost use Rattle.sj_streams.specs.Words.{words_at};

use crate::keys::{file_key, put_id};
use sj_base::NoMemory;
use sj_resp::{put_command, put_word};
use sj_text::put_number;

/// Appends words.
fn put_words(out: &mut Vec<u8>, words: &[Vec<u8>]) -> Result<(), NoMemory>
    ensures { OnOk result (out.new.items ≡ out.old.items ++ flat_map word_text (words_at words.now)) }
{
    for word in words {
        put_word(out, word)?;
    }
    Ok(())
}

/// Appends names of entries.
fn put_ids(out: &mut Vec<u8>, numbers: &[u64]) -> Result<(), NoMemory>
    ensures { OnOk result (out.new.items ≡ out.old.items ++ flat_map word_text (map id_text numbers.now)) }
{
    for number in numbers {
        put_id(out, *number)?;
    }
    Ok(())
}

/// Appends a number as a word.
fn put_count(out: &mut Vec<u8>, n: u64) -> Result<(), NoMemory>
    ensures { OnOk result (out.new.items ≡ out.old.items ++ word_text (decimal n)) }
{
    let mut text = Vec::new(*out.allocator());
    put_number(&mut text, n)?;
    put_word(out, &text)
}

/// Appends the command by which the run gets this text for its file, unless it has one.
#[tactic(auto, unfolding(sj_resp::specs::Spelling::command_text))]
pub fn put_share(out: &mut Vec<u8>, run: &[u8], text: &[u8]) -> Result<(), NoMemory>
    ensures { OnOk result (out.new.items ≡ out.old.items ++ command_text (share_words run.now text.now)) }
{
    let key = file_key(*out.allocator(), run)?;
    put_command(out, 3)?;
    put_word(out, b"SETNX")?;
    put_word(out, &key)?;
    put_word(out, text)
}

/// Appends the command that asks for the text of the run's file.
#[tactic(auto, unfolding(sj_resp::specs::Spelling::command_text))]
pub fn put_get(out: &mut Vec<u8>, run: &[u8]) -> Result<(), NoMemory>
    ensures { OnOk result (out.new.items ≡ out.old.items ++ command_text (get_words run.now)) }
{
    let key = file_key(*out.allocator(), run)?;
    put_command(out, 2)?;
    put_word(out, b"GET")?;
    put_word(out, &key)
}

/// Appends the words of the next command.
fn put_add_words(
    out: &mut Vec<u8>,
    key: &[u8],
    number: u64,
    words: &[Vec<u8>],
) -> Result<(), NoMemory>
    ensures { OnOk result (out.new.items ≡ out.old.items
        ++ flat_map word_text (add_words key.now number (words_at words.now))) }
{
    put_word(out, b"XADD")?;
    put_word(out, key)?;
    put_id(out, number)?;
    put_words(out, words)
}

/// Appends the command that adds these words to the stream as its entry of that number. The server
/// takes it only where no entry of that number or a later one stands.
pub fn put_add(
    out: &mut Vec<u8>,
    key: &[u8],
    number: u64,
    words: &[Vec<u8>],
) -> Result<(), NoMemory>
    requires { length words.now + 3 < 2 ^ 32 }
    ensures { OnOk result (out.new.items ≡ out.old.items
        ++ command_text (add_words key.now number (words_at words.now))) }
{
    put_command(out, words.len() as u32 + 3)?;
    put_add_words(out, key, number, words)
}

/// Appends for how long the server is to wait.
fn put_block(out: &mut Vec<u8>, block: Option<u64>) -> Result<(), NoMemory>
    ensures { OnOk result (out.new.items ≡ out.old.items ++ flat_map word_text (block_words block)) }
{
    if let Some(time) = block {
        put_word(out, b"BLOCK")?;
        return put_count(out, time);
    }
    Ok(())
}

/// Appends the words of the next command.
fn put_read_words(
    out: &mut Vec<u8>,
    most: u64,
    block: Option<u64>,
    keys: &[Vec<u8>],
    seen: &[u64],
) -> Result<(), NoMemory>
    ensures { OnOk result (out.new.items ≡ out.old.items
        ++ flat_map word_text (read_words most block (words_at keys.now) seen.now)) }
{
    put_word(out, b"XREAD")?;
    put_word(out, b"COUNT")?;
    put_count(out, most)?;
    put_block(out, block)?;
    put_word(out, b"STREAMS")?;
    put_words(out, keys)?;
    put_ids(out, seen)
}

/// How many words say for how long the server is to wait.
fn block_count(block: Option<u64>) -> u32
    ensures { result ≡ length (block_words block) }
{
    if block.is_some() { 2 } else { 0 }
}

/// Appends the command that reads what comes after the entries that were seen, at most so many of
/// each stream. With `block` the server waits until something comes, at most so many milliseconds.
pub fn put_read(
    out: &mut Vec<u8>,
    most: u64,
    block: Option<u64>,
    keys: &[Vec<u8>],
    seen: &[u64],
) -> Result<(), NoMemory>
    requires same { length seen.now ≡ length keys.now }
    requires few { 2 * length keys.now + 6 < 2 ^ 32 }
    ensures { OnOk result (out.new.items ≡ out.old.items
        ++ command_text (read_words most block (words_at keys.now) seen.now)) }
{
    put_command(
        out,
        keys.len() as u32 + seen.len() as u32 + 4 + block_count(block),
    )?;
    put_read_words(out, most, block, keys, seen)
}
