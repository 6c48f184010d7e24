//! How much was done in a plain world.
ghost use Rattle.std.specs.Prelude.{◌≡◌, ◌≤◌, IfOk, OnOk, ◌++◌, map, sum_by};
ghost use Rattle.sj_end.specs.Lines.{line_at};
ghost use Rattle.sj_lang.specs.FileView.{file_of};
ghost use Rattle.sj_lang.specs.Limits.{limits};
ghost use Rattle.sj_plain.specs.Plain.{party_count, session_count, world_at};
ghost use Rattle.sj_generator_laws.specs.Counts.{messages_in, steps_in};
ghost use Rattle.sj_semantics.specs.World.{World};
ghost use Rattle.sj_tool.specs.Sums.{summary, sums_line};
ghost use Rattle.sj_tool.specs.Telling.{IsToldIn};
ghost use Rattle.std.specs.Prelude.{◌+◌, decimal};

use sj_base::{EndId, NoMemory};
use sj_end::Line;
use sj_lang::File;
use sj_plain::Plain;
use sj_print::print_verdict;
use sj_text::{put, put_number};
use sj_told::{Stand, messages_told, verdict_told};
use std::alloc::Global;

/// The summary of the generated file of that number, as the plain world of it stands. A sum past
/// 2^64 - 1, or more sessions than have numbers, which no memory could hold, is answered as out of
/// memory.
pub(crate) fn summary_text(
    alloc: Global,
    n: u16,
    file: &File,
    plain: &Plain,
) -> Result<Vec<u8>, NoMemory>
    requires { party_count plain.now ≤ limits.parties }
    ensures { IfOk result (λ text. text.items ≡ summary n (file_of file.now) (world_at plain.now)) }
{
    let messages = messages(plain)?;
    let steps = steps(plain)?;
    let mut text = Vec::new(alloc);
    put_sums(&mut text, n, file, messages, steps)?;
    print_verdict(&mut text, plain.verdict())?;
    Ok(text)
}

/// The summary of the generated file of that number, as the lines and how the parties stand report
/// it. A sum past 2^64 - 1, which no memory could hold, is answered as out of memory.
pub(crate) fn sums_text(
    alloc: Global,
    n: u16,
    file: &File,
    lines: &[Line],
    stands: &[Stand],
) -> Result<Vec<u8>, NoMemory>
    ensures { IfOk result (λ text. (w : World) → IsToldIn (file_of file.now) (map line_at lines.now) stands.now w →
        text.items ≡ summary n (file_of file.now) w) }
{
    let messages = messages_told(lines) as u64;
    let steps = steps_told(stands)?;
    let mut text = Vec::new(alloc);
    put_sums(&mut text, n, file, messages, steps)?;
    print_verdict(&mut text, verdict_told(stands))?;
    Ok(text)
}

// How many steps parties did that stand so.
fn steps_told(stands: &[Stand]) -> Result<u64, NoMemory>
    ensures { IfOk result (λ n. n ≡ sum_by (λ s. s.steps) stands.now) }
{
    let mut count = 0u64;
    for stand in stands {
        count = add(count, u64::from(stand.steps))?;
    }
    Ok(count)
}

// The line of the number, the counts and the sums.
fn put_sums(
    text: &mut Vec<u8>,
    n: u16,
    file: &File,
    messages: u64,
    steps: u64,
) -> Result<(), NoMemory>
    ensures { OnOk result (text.new.items
        ≡ text.old.items ++ sums_line n (file_of file.now) messages steps) }
{
    put_count(text, b"big ", u64::from(n))?;
    put_count(text, b" parties ", file.parties.len() as u64)?;
    put_count(text, b" sessions ", file.connects.len() as u64)?;
    put_count(text, b" messages ", messages)?;
    put_count(text, b" steps ", steps)?;
    put(text, b"\n")
}

fn put_count(text: &mut Vec<u8>, name: &[u8], count: u64) -> Result<(), NoMemory>
    ensures { OnOk result (text.new.items ≡ text.old.items ++ (name.now ++ decimal count)) }
{
    put(text, name)?;
    put_number(text, count)
}

// How many sessions there are by their numbers.
fn numbers(plain: &Plain) -> Result<u32, NoMemory>
    ensures { IfOk result (λ n. n ≡ session_count plain.now) }
{
    match u32::try_from(plain.sessions()) {
        Ok(sessions) => Ok(sessions),
        Err(_) => Err(NoMemory),
    }
}

// How many messages the ends of all sessions sent.
fn messages(plain: &Plain) -> Result<u64, NoMemory>
    ensures { IfOk result (λ n. n ≡ messages_in (world_at plain.now)) }
{
    let sessions = numbers(plain)?;
    let mut count = 0u64;
    for sess in 0..sessions {
        let first = plain.sent(EndId { sess, side: 0 }).len();
        let second = plain.sent(EndId { sess, side: 1 }).len();
        count = add(add(count, first as u64)?, second as u64)?;
    }
    Ok(count)
}

// How many steps all parties did.
fn steps(plain: &Plain) -> Result<u64, NoMemory>
    requires { party_count plain.now ≤ limits.parties }
    ensures { IfOk result (λ n. n ≡ steps_in (world_at plain.now)) }
{
    let mut count = 0u64;
    for i in 0..plain.parties() {
        count = add(count, u64::from(plain.steps(i as u16)))?;
    }
    Ok(count)
}

fn add(count: u64, more: u64) -> Result<u64, NoMemory>
    ensures { IfOk result (λ n. n ≡ count + more) }
{
    count.checked_add(more).ok_or(NoMemory)
}
