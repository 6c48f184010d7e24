//! The file on standard input.
ghost use Rattle.std.specs.Prelude.{◌<◌, IfOk, length};
ghost use Rattle.sj_check.specs.Held.{file_in};
ghost use Rattle.sj_lang.specs.FileView.{file_of};

use crate::statuses::Why;
use sj_base::{ReadRefusal, Source, read_all};
use sj_check::{Accepted, CheckRefusal, check};
use sj_party::{ParseRefusal, parse_file};
use sj_remote_run::PlayRefusal;
use std::alloc::Global;

/// The most bytes of a file.
const LONGEST: usize = 65_536;

/// The accepted file that the source gives.
pub(crate) fn accepted_in<S: Source>(alloc: Global, src: &mut S) -> Result<Accepted, Why> {
    let text = match read_all(alloc, src, LONGEST) {
        Ok(text) => text,
        Err(ReadRefusal::TooLarge) => return Err(Why::TooLarge),
        Err(ReadRefusal::ReadFault) => return Err(Why::ReadFault),
        Err(ReadRefusal::NoMemory) => return Err(Why::Refused(PlayRefusal::NoMemory)),
    };
    let file = match parse_file(alloc, &text) {
        Ok(file) => file,
        Err(ParseRefusal::At(fault)) => return Err(Why::Syntax(fault)),
        Err(ParseRefusal::NoMemory) => return Err(Why::Refused(PlayRefusal::NoMemory)),
    };
    match check(alloc, file) {
        Ok(accepted) => Ok(accepted),
        Err((_, CheckRefusal::NoMemory)) => Err(Why::Refused(PlayRefusal::NoMemory)),
        Err((_, refusal)) => Err(Why::Check(refusal)),
    }
}

/// The number of the party of that name.
pub(crate) fn party_named(accepted: &Accepted, name: &[u8]) -> Result<u16, Why>
    ensures { IfOk result (λ p. p < length (file_of (file_in accepted.now)).parties) }
{
    let file = accepted.file();
    for party in 0..file.parties.len() {
        if file.names.words.get(usize::from(file.parties[party].name)) == Some(name) {
            return Ok(party as u16);
        }
    }
    Err(Why::NoParty)
}
