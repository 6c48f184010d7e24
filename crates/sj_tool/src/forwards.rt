//! Accepted files that are run by forwarding.
ghost use Rattle.std.specs.Prelude.{◌≡◌, ◌++◌, IfOk, OnOk};
ghost use Rattle.sj_check.specs.Held.{file_in};
ghost use Rattle.sj_lang.specs.FileView.{file_of};
ghost use Rattle.sj_tool.specs.Forwards.{HasForwarded, passed_line};

use sj_base::NoMemory;
use sj_check::Accepted;
use sj_forward::ForwardWorld;
use sj_print::print_transcript;
use sj_semantics::Verdict;
use sj_text::{put, put_number};
use std::alloc::Global;

/// How the file ends, its transcript, and how many frames were delivered: the parties run by
/// forwarding, in rounds, until one has no turn.
pub(crate) fn forward(alloc: Global, accepted: &Accepted) -> Result<(Verdict, Vec<u8>), NoMemory>
    ensures { IfOk result (λ p. HasForwarded (file_of (file_in accepted.now)) p.0 p.1.items) }
{
    let world = ForwardWorld::drained(alloc, accepted)?;
    let plain = world.plain();
    let mut text = Vec::new(alloc);
    print_transcript(&mut text, accepted.file(), plain)?;
    put_passed(&mut text, world.passed())?;
    Ok((plain.verdict(), text))
}

fn put_passed(text: &mut Vec<u8>, passed: u64) -> Result<(), NoMemory>
    ensures { OnOk result (text.new.items ≡ text.old.items ++ passed_line passed) }
{
    put(text, b"passed ")?;
    put_number(text, passed)?;
    put(text, b"\n")
}
