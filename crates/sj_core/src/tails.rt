//! Which of several logs ends last.
ghost use Rattle.std.specs.Prelude.{◌≡◌, ◌≤◌, ℕ, List, [], IfNone, IfOk, IfSome, length, map, reverse};
ghost use Rattle.std.specs.Global.{Vec};
ghost use Rattle.sj_core.specs.Given.{given_log, most_logs};
ghost use Rattle.sj_core.specs.Tails.{IsLast, first_clock, last_clocks, later_at};
ghost use Rattle.sj_core.specs.Views.{entry_at};
ghost use Rattle.sj_end.specs.declared.note.Entry.{Entry};

use sj_base::NoMemory;
use sj_end::Entry;
use std::alloc::Global;

/// Where a log ends: its party, and the clock of its last entry.
#[derive(Clone, Copy)]
struct Tail {
    party: u16,
    clock: u64,
}

/// The clock of a log's last entry, if it has one.
pub(crate) fn last_clock(log: &[Entry]) -> Option<u64>
    ensures { result ≡ first_clock (reverse (map entry_at log.now)) }
{
    let Some((entry, _)) = log.split_last() else {
        return None;
    };
    Some(entry.clock)
}

/// The clocks of the logs' last entries.
pub(crate) fn clocks_of(alloc: Global, logs: &[Vec<Entry>]) -> Result<Vec<Option<u64>>, NoMemory>
    ensures { IfOk result (λ v. v.items ≡ last_clocks logs.now) }
{
    let mut clocks = Vec::new(alloc);
    for log in logs {
        clocks.push(last_clock(log))?;
    }
    Ok(clocks)
}

// The later of that tail and the one of a later party's log, if it has one.
fn later(latest: Option<Tail>, party: u16, clock: Option<u64>) -> Option<Tail>
    ensures { result ≡ later_at latest party clock }
{
    let Some(clock) = clock else {
        return latest;
    };
    let own = Tail { party, clock };
    match latest {
        Some(tail) if own.clock < tail.clock => Some(tail),
        _ => Some(own),
    }
}

/// The party whose last entry comes last, by clock and then by party; none where no log has one.
/// The clocks are those of the logs' last entries.
pub(crate) fn last_party(clocks: &[Option<u64>]) -> Option<u16>
    requires { length clocks.now ≤ most_logs }
    ensures some { IfSome result (λ p. (logs : List (Vec Entry)) → clocks.now ≡ last_clocks logs → IsLast (given_log logs) p) }
    ensures none { IfNone result ((logs : List (Vec Entry)) → clocks.now ≡ last_clocks logs → (p : ℕ) → given_log logs p ≡ []) }
{
    let mut latest = None;
    for party in 0..clocks.len() {
        latest = later(latest, party as u16, clocks[party]);
    }
    match latest {
        Some(tail) => Some(tail.party),
        None => None,
    }
}
