//! The transcript of a world with seats that leaves nothing to do.
ghost use Rattle.std.specs.Prelude.{◌≡◌, ◌++◌, OnErr, OnOk, length};
ghost use Rattle.sj_lang.specs.FileView.{file_of};
ghost use Rattle.sj_seat_told.specs.Opened.{rest_text};
ghost use Rattle.sj_seat_told.specs.Quiet.{IsQuietOf};
ghost use Rattle.sj_seat_told.specs.Transcript.{IsToldAfter, IsToldInPart};
ghost use Rattle.sj_text.specs.Cut.{IsCutShort};

use crate::openings::{put_opened, session_count};
use crate::sessions::opened;
use crate::standing::{stands, verdict};
use sj_base::NoMemory;
use sj_lang::File;
use sj_print::{print_verdict, put_ends, put_stands};
use sj_seats::SeatedWorld;
use sj_semantics::Opened;
use sj_told::{Stand, ToldEnd, ends_told};
use std::alloc::Global;

/// Puts the transcript after the text: the sessions as the history reports them, those of connections
/// and then those that were opened, and the lines and the verdict by how the parties stand. Code has
/// no names for ends, so those of a session that was opened are told by its number and their sides.
/// Where codes added texts, the file is the one that has them (`named_file` of sj_seat_texts): the
/// world is quiet of that one, too (law `a_quiet_world_is_so_under_any_names`). A text that the file
/// lacks is `#` and its number. Out of memory, it leaves a prefix of the transcript.
pub fn put_transcript(
    alloc: Global,
    text: &mut Vec<u8>,
    file: &File,
    world: &SeatedWorld,
) -> Result<(), NoMemory>
    requires quiet { IsQuietOf (file_of file.now) world.now }

    // The transcript of the plain world to which the history's acts lead, which has the headline.
    ensures ok { OnOk result
        (IsToldAfter (file_of file.now) world.now text.old.items text.new.items) }
    ensures err { OnErr result
        (IsToldInPart (file_of file.now) world.now text.old.items text.new.items) }
{
    let stands = match stands(alloc, world) {
        Ok(stands) => stands,
        Err(refusal) => return Err(refusal),
    };
    let opened = match opened(alloc, world) {
        Ok(opened) => opened,
        Err(refusal) => return Err(refusal),
    };
    let ends = match ends_told(alloc, file.connects.len(), world.history()) {
        Ok(ends) => ends,
        Err(refusal) => return Err(refusal),
    };
    let opened_ends = match ends_told(alloc, session_count(&opened), world.history()) {
        Ok(ends) => ends,
        Err(refusal) => return Err(refusal),
    };
    put_ends(text, file, &ends)?;
    put_rest(text, file, &opened_ends, &opened, &stands)
}

// All but the sessions of connections: those that were opened, the parties and the verdict.
fn put_rest(
    text: &mut Vec<u8>,
    file: &File,
    ends: &[ToldEnd],
    opened: &[Opened],
    stands: &[Stand],
) -> Result<(), NoMemory>
    requires { length stands.now ≡ length (file_of file.now).parties }
    ensures ok { OnOk result (text.new.items ≡ text.old.items
        ++ rest_text (file_of file.now) ends.now opened.now stands.now) }
    ensures err { OnErr result (IsCutShort text.old.items
        (rest_text (file_of file.now) ends.now opened.now stands.now) text.new.items) }
{
    put_opened(text, file, ends, opened)?;
    put_stands(text, file, stands)?;
    print_verdict(text, verdict(stands, opened))
}
