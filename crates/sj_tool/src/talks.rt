//! A party played line by line.
ghost use Rattle.std.specs.Prelude.{◌<◌, IfOk, length};
ghost use Rattle.sj_check.specs.Held.{file_in};
ghost use Rattle.sj_lang.specs.FileView.{file_of};
ghost use Rattle.sj_tool.specs.Talks.{HasTalked};

use sj_base::NoMemory;
use sj_check::Accepted;
use sj_semantics::Verdict;
use sj_talk::{Talk, talk_lines};
use std::alloc::Global;

/// How the talk over the lines ends, and what is printed of it.
pub(crate) fn talk(
    alloc: Global,
    accepted: Accepted,
    party: u16,
    lines: &[u8],
) -> Result<(Verdict, Vec<u8>), NoMemory>
    requires { party < length (file_of (file_in accepted)).parties }
    ensures { IfOk result (λ t. HasTalked party (file_of (file_in accepted)) lines.now t.0 t.1.items) }
{
    let mut talk = Talk::start(alloc, accepted, party)?;
    let mut text = Vec::new(alloc);
    let verdict = talk_lines(&mut talk, lines, &mut text)?;
    Ok((verdict, text))
}
