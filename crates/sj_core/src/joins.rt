//! Logs joined into one list.
ghost use Rattle.std.specs.Prelude.{◌≡◌, ◌≤◌, ◌++◌, ◌∷◌, [], length, map, IfNone, IfOk, IfSome, vec_capacity};
ghost use Rattle.sj_rules.specs.Log.{IsInOrder, IsJoined, IsMerged, part_of};
ghost use Rattle.sj_core.specs.Given.{AreInOrder, count_given, given_log, most_logs};
ghost use Rattle.sj_core.specs.Views.{entry_at, line_at, line_of};

use crate::merges::merge;
use crate::tails::{clocks_of, last_clock, last_party};
use sj_base::NoMemory;
use sj_end::{Entry, Line};
use std::alloc::Global;

// A party's entries as lines.
fn lines_of(alloc: Global, party: u16, log: &[Entry]) -> Result<Vec<Line>, NoMemory>
    ensures { IfOk result (λ v. v.items ≡ map (line_of party) log.now) }
{
    let lines: Vec<Line> = log
        .iter()
        .map(|entry| Line {
            party,
            entry: *entry,
        })
        .collect(alloc)?;
    Ok(lines)
}

/// A further party's log merged into the lines of other parties. Both are in order.
pub fn merge_in(
    alloc: Global,
    so_far: &[Line],
    party: u16,
    log: &[Entry],
) -> Result<Vec<Line>, NoMemory>
    requires lines { IsInOrder (map line_at so_far.now) }
    requires other { part_of party (map line_at so_far.now) ≡ [] }
    requires log { IsInOrder (map line_at (map (line_of party) log.now)) }
    ensures { IfOk result (λ v. IsMerged (map line_at so_far.now) party (map entry_at log.now) (map line_at v.items)) }
{
    let own = lines_of(alloc, party, log)?;
    merge(alloc, so_far, &own)
}

// An empty list of lines with room for all entries of the logs.
fn room_for(alloc: Global, logs: &[Vec<Entry>]) -> Result<Vec<Line>, NoMemory>
    ensures items { IfOk result (λ v. v.items ≡ []) }
    ensures room { IfOk result (λ v. count_given logs.now ≤ vec_capacity v) }
{
    let mut entries: usize = 0;
    for log in logs {
        let Some(sum) = entries.checked_add(log.len()) else {
            return Err(NoMemory);
        };
        entries = sum;
    }
    let lines = Vec::with_capacity(alloc, entries)?;
    Ok(lines)
}

// Takes the last entry out of a log. Shrinks the log once an eighth of its capacity is free: n
// entries are moved about 8n times at most. None is moved where the system gives back the end of a
// block.
fn take_last(log: &mut Vec<Entry>) -> Option<Entry>
    ensures some { IfSome result (λ e. log.old.items ≡ log.new.items ++ e ∷ []) }
    ensures none { IfNone result (log.old.items ≡ []) }
{
    let entry = log.pop();
    if log.len() < log.capacity() / 8 * 7 {
        log.shrink_to_fit();
    }
    entry
}

/// The logs of the parties from the first on joined, each given up as its entries become lines. The
/// last line is the last of those with which the logs end, so the lines are made from the last on,
/// and turned at the end. The room for all lines is taken before. The clocks with which the logs
/// end stand in a list.
pub fn join_logs(alloc: Global, logs: Vec<Vec<Entry>>) -> Result<Vec<Line>, NoMemory>
    requires parties { length logs.items ≤ most_logs }
    requires order { AreInOrder (given_log logs.items) }
    ensures { IfOk result (λ v. IsJoined (given_log logs.items) (map line_at v.items)) }
{
    let mut left = logs;
    let mut lines = room_for(alloc, &left)?;
    let mut clocks = clocks_of(alloc, &left)?;
    while let Some(party) = last_party(&clocks) {
        let log = &mut left[party as usize];
        let Some(entry) = take_last(log) else {
            unreachable!();
        };
        clocks[party as usize] = last_clock(log);
        lines.push_reserved(Line { party, entry });
    }
    lines.reverse();
    Ok(lines)
}
