//! Calls of random code, said to a talk.

use crate::file::accepted_in;
use crate::said::{opens, said_of};
use crate::speech::Speaker;
use crate::why::Why;
use crate::wild::Asked;
use sj_base::NoMemory;
use sj_check::Accepted;
use sj_lang::File;
use sj_talk::Talk;
use std::alloc::Global;

// Whether the talk answers each line as the call was, up to the first call that opened a session.
fn are_said(
    alloc: Global,
    file: &File,
    talk: &mut Talk,
    party: u16,
    log: &[Asked],
) -> Result<bool, NoMemory> {
    let mut speaker = Speaker::new(alloc, file, party);
    for asked in log {
        if opens(*asked) {
            return Ok(true);
        }
        if let Some(said) = said_of(*asked) {
            let mut line = Vec::new(alloc);
            if speaker.put_call(&mut line, *asked)? && talk.line(&line)? != said {
                return Ok(false);
            }
            speaker.go_on(*asked)?;
        }
    }
    Ok(true)
}

/// In the plain world, where the party is played by lines, each line is answered as the call was.
pub(crate) fn spoken(
    alloc: Global,
    text: &[u8],
    accepted: &Accepted,
    party: u16,
    log: &[Asked],
) -> Result<(), Why> {
    let Some(own) = accepted_in(alloc, text) else {
        return Err(Why::NoMemory);
    };
    if usize::from(party) >= own.file().parties.len() {
        return Err(Why::Line);
    }
    let Ok(mut talk) = Talk::start(alloc, own, party) else {
        return Err(Why::NoMemory);
    };
    match are_said(alloc, accepted.file(), &mut talk, party, log) {
        Ok(true) => Ok(()),
        Ok(false) => Err(Why::Line),
        Err(NoMemory) => Err(Why::NoMemory),
    }
}
