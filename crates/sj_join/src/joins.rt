//! The logs of parties joined.
ghost use Rattle.std.specs.Prelude.{◌≡◌, ◌≤◌, IfErr, IfOk, length, map};
ghost use Rattle.sj_core.specs.Views.{line_at};
ghost use Rattle.sj_lang.specs.FileView.{file_of};
ghost use Rattle.sj_lang.specs.Limits.{limits};
ghost use Rattle.sj_join.specs.Joins.{AreLogsFrom, IsJoinOf, IsNoJoin};

use crate::JoinRefusal;
use crate::logs::log_of;
use sj_core::join_logs;
use sj_end::{Entry, Line};
use sj_lang::File;
use std::alloc::Global;

// The logs of the parties from the first on, of which these are the lines.
fn logs_of(alloc: Global, file: &File, texts: &[Vec<u8>]) -> Result<Vec<Vec<Entry>>, JoinRefusal>
    requires few { length texts.now ≤ limits.parties }
    ensures logs { IfOk result (λ logs. AreLogsFrom (file_of file.now) 0 (map (λ t. t.items) texts.now) logs.items) }
    ensures fault { IfErr result (IsNoJoin (file_of file.now) (map (λ t. t.items) texts.now)) }
{
    let mut logs = Vec::new(alloc);
    for party in 0..texts.len() {
        logs.push(log_of(alloc, file, party as u16, &texts[party])?)?;
    }
    Ok(logs)
}

/// The lines of all parties from the first on, joined by clock and then by party.
pub fn join_texts(alloc: Global, file: &File, texts: &[Vec<u8>]) -> Result<Vec<Line>, JoinRefusal>
    requires few { length texts.now ≤ limits.parties }
    ensures joined { IfOk result (λ lines. IsJoinOf (file_of file.now) (map (λ t. t.items) texts.now) (map line_at lines.items)) }
    ensures fault { IfErr result (IsNoJoin (file_of file.now) (map (λ t. t.items) texts.now)) }
{
    let logs = logs_of(alloc, file, texts)?;
    let lines = join_logs(alloc, logs)?;
    Ok(lines)
}
