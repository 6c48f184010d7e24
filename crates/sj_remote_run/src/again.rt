//! An entry of the party's stream, done again.
ghost use Rattle.std.specs.Prelude.{◌≡◌, IfErr, IsTrue, OnOk};
ghost use Rattle.sj_check.specs.Held.{file_in};
ghost use Rattle.sj_lang.specs.FileView.{file_of};
ghost use Rattle.sj_remote_run.specs.Again.{DidAgain, WentFor};
ghost use Rattle.sj_remote_run.specs.Asked.{IsInside};
ghost use Rattle.sj_remote_run.specs.Posts.{HasNone, IsOut};
ghost use Rattle.sj_streams.specs.Words.{words_at};

use crate::PlayRefusal;
use crate::entries::{LONGEST, batch_words};
use crate::events::redo;
use crate::posts::{clear, push_all};
use sj_check::Accepted;
use sj_end::Line;
use sj_engine::{ByteIn, ByteOut};
use sj_lane::Lanes;
use sj_lang::File;
use sj_log::{LogRefusal, read_log};
use sj_node::Node;
use sj_streams::lines_of;
use std::alloc::Global;

/// The lines of a batch.
pub fn lines_in(alloc: Global, file: &File, text: &[u8]) -> Result<Vec<Line>, PlayRefusal>
    ensures { IfErr result IsInside }
{
    if text.len() > LONGEST {
        return Err(PlayRefusal::LogFault);
    }
    match read_log(alloc, text, file, 2) {
        Ok(lines) => Ok(lines),
        Err(LogRefusal::NoMemory) => Err(PlayRefusal::NoMemory),
        Err(LogRefusal::At { .. }) => Err(PlayRefusal::LogFault),
    }
}

/// Does the events of a batch again, whose lines these are. What each of them posts is on its lane
/// before the next.
fn redo_lines(
    alloc: Global,
    accepted: &Accepted,
    node: &mut Node,
    lanes: &mut Lanes<ByteOut, ByteIn>,
    text: &[u8],
) -> Result<(), PlayRefusal>
    ensures went { OnOk result
        (WentFor lanes.old.outs.items node.old lanes.new.outs.items node.new) }
    ensures out { OnOk result (IsOut lanes.new.outs.items node.new) }
    ensures refused { IfErr result IsInside }
{
    let lines = lines_in(alloc, accepted.file(), text)?;
    for line in &lines {
        if line.party != node.party() {
            return Err(PlayRefusal::LogFault);
        }
        push_all(alloc, node, lanes)?;
        redo(node, &mut lanes.ins, &line.entry)?;
    }
    push_all(alloc, node, lanes)
}

/// Whether they are the same words.
pub fn same_words(these: &[Vec<u8>], those: &[Vec<u8>]) -> bool
    ensures { IsTrue result → words_at these.now ≡ words_at those.now }
{
    if these.len() != those.len() {
        return false;
    }
    for i in 0..these.len() {
        if these[i].as_slice() != those[i].as_slice() {
            return false;
        }
    }
    true
}

/// Does a batch again whose entry has these words. It has to be the very entry that the party adds
/// here, lines and frames.
pub fn do_again(
    alloc: Global,
    accepted: &Accepted,
    node: &mut Node,
    lanes: &mut Lanes<ByteOut, ByteIn>,
    words: &[Vec<u8>],
) -> Result<(), PlayRefusal>
    requires { HasNone lanes.old.outs.items node.old }
    ensures again { OnOk result
        (DidAgain (file_of (file_in accepted.now)) (words_at words.now) node.old node.new) }
    ensures none { OnOk result (HasNone lanes.new.outs.items node.new) }
    ensures refused { IfErr result IsInside }
{
    let Some(text) = lines_of(words) else {
        return Err(PlayRefusal::LogFault);
    };
    redo_lines(alloc, accepted, node, lanes, text)?;
    let party = node.party();
    let entries = node.take_log();
    if lanes.outs.len() >= 65_536 {
        return Err(PlayRefusal::LogFault);
    }
    let made = batch_words(alloc, accepted.file(), party, &entries, &lanes.outs)?;
    if !same_words(&made, words) {
        return Err(PlayRefusal::LogFault);
    }
    clear(&mut lanes.outs);
    Ok(())
}
