//! Where the parties of a run are.
ghost use Rattle.std.specs.Prelude.{◌≡◌, ◌++◌, decimal, OnOk};
ghost use Rattle.sj_lang.specs.FileView.{file_of};
ghost use Rattle.sj_join.specs.Now.{is_ready};
ghost use Rattle.sj_join.specs.Places.{end_part, place_line, place_part, told_line};

use sj_base::{EndId, NoMemory};
use sj_lang::File;
use sj_print::print_name;
use sj_semantics::{Limit, State};
use sj_text::{put, put_number};

// An end, after a space.
fn put_end(text: &mut Vec<u8>, end: EndId) -> Result<(), NoMemory>
    ensures { OnOk result (text.new.items ≡ text.old.items ++ end_part end) }
{
    put(text, b" ")?;
    put_number(text, u64::from(end.sess))?;
    put(text, b".")?;
    put_number(text, u64::from(end.side))
}

// A word and the steps.
fn put_steps(text: &mut Vec<u8>, word: &[u8], steps: u32) -> Result<(), NoMemory>
    ensures { OnOk result (text.new.items ≡ text.old.items ++ (word.now ++ decimal steps)) }
{
    put(text, word)?;
    put_number(text, u64::from(steps))
}

// How a party stands, after its name.
fn put_place(text: &mut Vec<u8>, file: &File, steps: u32, state: State) -> Result<(), NoMemory>
    ensures { OnOk result (text.new.items ≡ text.old.items ++ place_part (file_of file.now) steps state) }
{
    match state {
        State::Ready => put_steps(text, b" goes on ", steps),
        State::Ended => put_steps(text, b" ended ", steps),
        State::Waits(end) => {
            put_steps(text, b" waits ", steps)?;
            put_end(text, end)
        }
        State::WaitsOpen(from) => {
            put_steps(text, b" waits ", steps)?;
            put(text, b" from ")?;
            print_name(text, file, from)
        }
        State::AtLimit(Limit::Steps) => put_steps(text, b" limit ", steps),
        State::AtLimit(Limit::Hops(end)) => {
            put_steps(text, b" limit ", steps)?;
            put_end(text, end)
        }
        State::AtLimit(Limit::Requests) => {
            put_steps(text, b" limit ", steps)?;
            put(text, b" request")
        }
    }
}

/// The line of a party: how it stands, and after how many steps.
pub(crate) fn put_party(
    text: &mut Vec<u8>,
    file: &File,
    party: u16,
    steps: u32,
    state: State,
) -> Result<(), NoMemory>
    ensures { OnOk result (text.new.items
        ≡ text.old.items ++ place_line (file_of file.now) party steps state) }
{
    put(text, b"party ")?;
    print_name(text, file, party)?;
    put_place(text, file, steps, state)?;
    put(text, b"\n")
}

/// The line of a party as a transcript has it: with its name alone where it can go on.
pub(crate) fn put_told(
    text: &mut Vec<u8>,
    file: &File,
    party: u16,
    steps: u32,
    state: State,
) -> Result<(), NoMemory>
    ensures { OnOk result (text.new.items
        ≡ text.old.items ++ told_line (file_of file.now) party steps state) }
{
    put(text, b"party ")?;
    print_name(text, file, party)?;
    if !is_ready(state) {
        put_place(text, file, steps, state)?;
    }
    put(text, b"\n")
}

/// Whether a party that stands so can act.
pub(crate) fn is_ready(state: State) -> bool
    ensures { result ≡ is_ready state }
{
    matches!(state, State::Ready)
}
