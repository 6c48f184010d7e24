//! The transcript of a world with seats that leaves nothing to do, with its verdict.
ghost use Rattle.std.specs.Prelude.{IfOk};
ghost use Rattle.sj_lang.specs.FileView.{file_of};
ghost use Rattle.sj_seat_end.specs.Told.{IsToldBy, IsToldUnder};
ghost use Rattle.sj_seat_told.specs.Quiet.{IsQuietOf};

use sj_base::NoMemory;
use sj_lang::File;
use sj_seat_texts::{Texts, named_file};
use sj_seat_told::{opened, put_transcript, stands, verdict};
use sj_seats::SeatedWorld;
use sj_semantics::Verdict;
use std::alloc::Global;

/// The transcript of a run with seats, and the verdict with which it ends.
#[derive(Drop)]
pub struct Told {
    pub verdict: Verdict,
    pub text: Vec<u8>,
}

/// What the world reports of the end of its run, its texts named by that file. Others are `#` and
/// their numbers.
pub fn told_of(alloc: Global, file: &File, world: &SeatedWorld) -> Result<Told, NoMemory>
    requires quiet { IsQuietOf (file_of file.now) world.now }
    ensures { IfOk result (λ t.
        IsToldBy (file_of file.now) world.now t.verdict t.text.items) }
{
    let mut text = Vec::new(alloc);
    match put_transcript(alloc, &mut text, file, world) {
        Ok(()) => {}
        Err(refusal) => return Err(refusal),
    }
    let stands = match stands(alloc, world) {
        Ok(stands) => stands,
        Err(refusal) => return Err(refusal),
    };
    let opened = match opened(alloc, world) {
        Ok(opened) => opened,
        Err(refusal) => return Err(refusal),
    };
    let verdict = verdict(&stands, &opened);
    Ok(Told { verdict, text })
}

/// The same, where codes added texts to those of the file: these are the texts of the run.
pub fn told_with(
    alloc: Global,
    file: &File,
    texts: Texts,
    world: &SeatedWorld,
) -> Result<Told, NoMemory>
    requires quiet { IsQuietOf (file_of file.now) world.now }
    ensures { IfOk result (λ t.
        IsToldUnder (file_of file.now) world.now t.verdict t.text.items) }
{
    match named_file(alloc, file, texts) {
        Ok(named) => told_of(alloc, &named, world),
        Err(refusal) => Err(refusal),
    }
}
