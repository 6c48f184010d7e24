//! What lines report of the ends of a file's connections.
ghost use Rattle.std.specs.Prelude.{◌≡◌, ◌<◌, ◌*◌, ◌++◌, ◌∷◌, [], IfOk, OnOk, length, map};
ghost use Rattle.sj_end.specs.Lines.{line_at, note_seen};
ghost use Rattle.sj_semantics.specs.Ends.{other_end};
ghost use Rattle.sj_told.specs.Lines.{AreEmpty, AreToldBy, Grow, GrowAt, HasMore, IsEmpty};
ghost use Rattle.sj_told.specs.Told.{slot_of};

use crate::told::ToldEnd;
use sj_base::{EndId, NoMemory};
use sj_end::{Line, Note};
use sj_semantics::Passed;
use std::alloc::Global;

/// What the ends of so many connections sent, and who took it, as the lines report. Each line is
/// read once.
pub fn ends_told(alloc: Global, connects: usize, lines: &[Line]) -> Result<Vec<ToldEnd>, NoMemory>
    ensures { IfOk result (λ v. AreToldBy (map line_at lines.now) connects v.items) }
{
    let mut ends = empty_ends(alloc, connects)?;
    for line in lines {
        tell_line(&mut ends, line)?;
    }
    Ok(ends)
}

// Two ends to a connection, of which nothing is reported.
fn empty_ends(alloc: Global, connects: usize) -> Result<Vec<ToldEnd>, NoMemory>
    ensures { IfOk result (λ v. AreEmpty (2 * connects) v.items) }
{
    let mut ends = Vec::new(alloc);
    for sess in 0..connects {
        let first = empty_end(alloc);
        let second = empty_end(alloc);
        ends.push(first)?;
        ends.push(second)?;
    }
    Ok(ends)
}

fn empty_end(alloc: Global) -> ToldEnd
    ensures { IsEmpty result }
{
    ToldEnd {
        sent: Vec::new(alloc),
        takers: Vec::new(alloc),
    }
}

// What the next line reports.
fn tell_line(ends: &mut Vec<ToldEnd>, line: &Line) -> Result<(), NoMemory>
    ensures { OnOk result (Grow ends.old.items line.now.party (note_seen line.now.entry.note) ends.new.items) }
{
    let by = line.party;
    match line.entry.note {
        Note::Sent { end, msg } => tell_sent(ends, slot_of(end), Passed { msg, by }),
        Note::Took { end, .. } => tell_taken(ends, other_slot_of(end), by),
        _ => Ok(()),
    }
}

// Where the end lies in the list.
fn slot_of(end: EndId) -> usize
    ensures { result ≡ slot_of end }
{
    let first = 2 * end.sess as usize;
    if end.side == 0 { first } else { first + 1 }
}

// Where the other end of the session lies.
fn other_slot_of(end: EndId) -> usize
    ensures { result ≡ slot_of (other_end end) }
{
    let first = 2 * end.sess as usize;
    if end.side == 0 { first + 1 } else { first }
}

fn tell_sent(ends: &mut Vec<ToldEnd>, at: usize, passed: Passed) -> Result<(), NoMemory>
    ensures { OnOk result (GrowAt at (passed ∷ []) [] ends.old.items ends.new.items) }
{
    if at >= ends.len() {
        return Ok(());
    }
    let end = &mut ends[at];
    add_sent(end, passed)?;
    Ok(())
}

fn add_sent(end: &mut ToldEnd, passed: Passed) -> Result<(), NoMemory>
    ensures { OnOk result (HasMore (passed ∷ []) [] end.old end.new) }
{
    end.sent.push(passed)?;
    Ok(())
}

fn tell_taken(ends: &mut Vec<ToldEnd>, at: usize, by: u16) -> Result<(), NoMemory>
    ensures { OnOk result (GrowAt at [] (by ∷ []) ends.old.items ends.new.items) }
{
    if at >= ends.len() {
        return Ok(());
    }
    let end = &mut ends[at];
    add_taker(end, by)?;
    Ok(())
}

fn add_taker(end: &mut ToldEnd, by: u16) -> Result<(), NoMemory>
    ensures { OnOk result (HasMore [] (by ∷ []) end.old end.new) }
{
    end.takers.push(by)?;
    Ok(())
}
