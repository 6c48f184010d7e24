//! An entry of the party's stream, done again.
#![tactic(auto, using(crate::proofs::StepsLemmas::no_step, crate::proofs::StepsLemmas::one_step, crate::proofs::StepsLemmas::steps_then))]

ghost use Rattle.std.specs.Prelude.{◌≡◌, [], IfOk, IsTrue, map};
ghost use Rattle.sj_check.specs.Held.{file_in};
ghost use Rattle.sj_engine.specs.Lanes.{pushed_on};
ghost use Rattle.sj_lang.specs.FileView.{file_of};
ghost use Rattle.sj_node.specs.Node.{log_of};
ghost use Rattle.sj_remote_run.specs.Entries.{entry_words};
ghost use Rattle.sj_remote_seat.specs.Caught.{DidAgain};
ghost use Rattle.sj_remote_seat.specs.Steps.{Steps};
ghost use Rattle.sj_remote_seat.specs.Turns.{IsClear, Sat};
ghost use Rattle.sj_seat.specs.Views.{node_of};
ghost use Rattle.sj_streams.specs.Words.{words_at};
ghost use Rattle.sj_work.specs.Laned.{entries_of};

use crate::SeatPlayRefusal;
use crate::asking::Asking;
use crate::code::Code;
use crate::events::redo;
use crate::seat::Seat;
use sj_check::Accepted;
use sj_end::Entry;
use sj_engine::ByteOut;
use sj_lang::File;
use sj_remote_run::{PlayRefusal, batch_words, clear, lines_in, push_all, same_words};
use sj_streams::lines_of;
use sj_work::Worker;
use std::alloc::Global;

/// Does again the events of a batch, whose lines these are. Answers their entries.
fn redo_lines<'a, C: Code>(
    alloc: Global,
    accepted: &Accepted,
    seat: Seat<'a>,
    asking: &mut Asking,
    code: &mut C,
    text: &[u8],
) -> Result<(Seat<'a>, Vec<Entry>), SeatPlayRefusal>
    requires { log_of (node_of seat) ≡ [] }
    ensures sat { IfOk result (λ r. Sat seat.entry r.0 (entries_of r.1.items)) }
    ensures none { IfOk result (λ r. log_of (node_of r.0) ≡ []) }
    ensures steps { Steps C.Code.step code.old code.new }
{
    let lines = lines_in(alloc, accepted.file(), text)?;
    let mut going = seat;
    let mut made = Vec::new(alloc);
    for line in &lines {
        if line.party != going.worker().node().party() {
            return Err(SeatPlayRefusal::Party(PlayRefusal::LogFault));
        }
        let entry = line.entry;
        let next = redo(alloc, going, asking, code, &entry)?;
        going = next;
        made.push(entry)?;
    }
    Ok((going, made))
}

/// Whether the words are those of the entry that the party adds: the lines of its events, and the
/// frames that were pushed on its lanes.
fn is_entry(
    alloc: Global,
    file: &File,
    party: u16,
    entries: &[Entry],
    outs: &[ByteOut],
    words: &[Vec<u8>],
) -> Result<bool, PlayRefusal>
    ensures { IfOk result (λ same. IsTrue same → words_at words.now
        ≡ entry_words (file_of file.now) party entries.now (map pushed_on outs.now)) }
{
    if outs.len() >= 65_536 {
        return Ok(false);
    }
    let made = batch_words(alloc, file, party, entries, outs)?;
    Ok(same_words(&made, words))
}

/// Does a batch again whose entry has these words. It has to be the very entry that the party adds
/// here, lines and frames.
pub(crate) fn do_again<'a, C: Code>(
    alloc: Global,
    accepted: &Accepted,
    seat: Seat<'a>,
    asking: &mut Asking,
    code: &mut C,
    words: &[Vec<u8>],
) -> Result<Seat<'a>, SeatPlayRefusal>
    requires empty { log_of (node_of seat) ≡ [] }
    requires clear { IsClear seat }
    ensures again { IfOk result (λ new.
        DidAgain (file_of (file_in accepted.now)) (words_at words.now) seat.entry new) }
    ensures clear { IfOk result (λ new. IsClear new) }
    ensures none { IfOk result (λ new. log_of (node_of new) ≡ []) }
    ensures steps { Steps C.Code.step code.old code.new }
{
    let Some(text) = lines_of(words) else {
        return Err(SeatPlayRefusal::Party(PlayRefusal::LogFault));
    };
    let (seat, made) = redo_lines(alloc, accepted, seat, asking, code, text)?;
    let (worker, holdings) = seat.into_parts();
    let (mut lanes, mut node, _) = worker.into_parts();
    push_all(alloc, &mut node, &mut lanes)?;
    let party = node.party();
    if !is_entry(alloc, accepted.file(), party, &made, &lanes.outs, words)? {
        return Err(SeatPlayRefusal::Party(PlayRefusal::LogFault));
    }
    clear(&mut lanes.outs);
    let worker = Worker::new(node, lanes);
    Ok(holdings.with_worker(worker))
}
