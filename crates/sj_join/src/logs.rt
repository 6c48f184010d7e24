//! The log of a party, read from its lines.
ghost use Rattle.std.specs.Prelude.{◌≡◌, ◌==◌, ◌↔◌, IfErr, IfOk, IsTrue, map};
ghost use Rattle.std.specs.List.{list_all};
ghost use Rattle.sj_core.specs.Views.{entry_at};
ghost use Rattle.sj_lang.specs.FileView.{file_of};
ghost use Rattle.sj_join.specs.Joins.{IsLogIn, IsNoLogIn};
ghost use Rattle.sj_rules.specs.Log.{IsRising};

use crate::JoinRefusal;
use sj_base::NoMemory;
use sj_end::{Entry, Line};
use sj_lang::File;
use sj_log::{LogRefusal, read_log};
use std::alloc::Global;

/// The version of logs that has all forms of a line.
const VERSION: u8 = 2;

/// The most bytes of a log.
const MOST_BYTES: usize = 16_777_216;

// Whether the lines are all of the party.
fn are_of(party: u16, lines: &[Line]) -> bool
    ensures { result ≡ list_all (λ l. l.party == party) lines.now }
{
    for line in lines {
        if line.party != party {
            return false;
        }
    }
    true
}

// Whether the clocks rise.
fn rise(lines: &[Line]) -> bool
    ensures { IsTrue result ↔ IsRising 0 (map entry_at (map (λ l. l.entry) lines.now)) }
{
    let mut clock = 0;
    for line in lines {
        if line.entry.clock <= clock {
            return false;
        }
        clock = line.entry.clock;
    }
    true
}

// The entries of the lines.
fn entries_of(alloc: Global, lines: &[Line]) -> Result<Vec<Entry>, NoMemory>
    ensures { IfOk result (λ v. v.items ≡ map (λ l. l.entry) lines.now) }
{
    let entries: Vec<Entry> = lines.iter().map(|line| line.entry).collect(alloc)?;
    Ok(entries)
}

/// The party's log of which these are the lines.
pub(crate) fn log_of(
    alloc: Global,
    file: &File,
    party: u16,
    text: &[u8],
) -> Result<Vec<Entry>, JoinRefusal>
    ensures log { IfOk result (λ log. IsLogIn (file_of file.now) party text.now (map entry_at log.items)) }
    ensures fault { IfErr result (IsNoLogIn (file_of file.now) party text.now) }
{
    if text.len() > MOST_BYTES {
        return Err(JoinRefusal::TooLarge);
    }
    let lines = match read_log(alloc, text, file, VERSION) {
        Ok(lines) => lines,
        Err(LogRefusal::At { rule, line }) => return Err(JoinRefusal::NoLog { party, rule, line }),
        Err(LogRefusal::NoMemory) => return Err(JoinRefusal::NoMemory),
    };
    if !are_of(party, &lines) {
        return Err(JoinRefusal::Disorder { party });
    }
    if !rise(&lines) {
        return Err(JoinRefusal::Disorder { party });
    }
    let entries = entries_of(alloc, &lines)?;
    Ok(entries)
}
