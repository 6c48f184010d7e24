//! Two lists of lines merged into one.
ghost use Rattle.std.specs.Prelude.{IsTrue, IfOk, ◌↔◌, map};
ghost use Rattle.sj_rules.specs.Log.{IsBefore, IsInOrder};
ghost use Rattle.sj_core.specs.Views.{line_at};
ghost use Rattle.sj_core.specs.Merged.{AreApart, AreMerged};

use sj_base::NoMemory;
use sj_end::Line;
use std::alloc::Global;

// Whether the line stands before the other: by clock, then by party.
fn comes_before(line: &Line, other: &Line) -> bool
    ensures { IsTrue result ↔ IsBefore (line_at line.now) (line_at other.now) }
{
    let (clock, late) = (line.entry.clock, other.entry.clock);
    clock < late || clock == late && line.party < other.party
}

/// The lines of both lists, which have no party in common.
pub(crate) fn merge(alloc: Global, front: &[Line], back: &[Line]) -> Result<Vec<Line>, NoMemory>
    requires front { IsInOrder (map line_at front.now) }
    requires back { IsInOrder (map line_at back.now) }
    requires apart { AreApart (map line_at front.now) (map line_at back.now) }
    ensures { IfOk result (λ v. AreMerged (map line_at front.now) (map line_at back.now) (map line_at v.items)) }
{
    let mut lines = Vec::with_capacity(alloc, front.len().saturating_add(back.len()))?;
    let (mut i, mut j) = (0, 0);
    while i < front.len() && j < back.len() {
        if comes_before(&front[i], &back[j]) {
            lines.push(front[i])?;
            i += 1;
        } else {
            lines.push(back[j])?;
            j += 1;
        }
    }
    lines.extend_from_slice(&front[i..])?;
    lines.extend_from_slice(&back[j..])?;
    Ok(lines)
}
