//! The faults that lanes met.
ghost use Rattle.std.specs.Prelude.{◌≡◌, ◌<◌, ◌≤◌};
ghost use Rattle.sj_lane.specs.Told.{Rose};
ghost use Rattle.sj_socket.specs.Counts.{capped_sum, met, met_in, met_out};

use crate::{TcpIn, TcpOut};
use sj_lane::Lanes;

/// Those of lanes to other parties, after so many others.
fn with_outs(before: u64, outs: &[TcpOut]) -> u64
    ensures { result ≡ capped_sum before (met_out outs.now) }
{
    let mut sum = before;
    for out in outs {
        sum = sum.saturating_add(out.faults);
    }
    sum
}

/// Those of lanes from other parties, after so many others.
fn with_ins(before: u64, ins: &[TcpIn]) -> u64
    ensures { result ≡ capped_sum before (met_in ins.now) }
{
    let mut sum = before;
    for lane in ins {
        sum = sum.saturating_add(lane.faults);
    }
    sum
}

/// Those of all lanes, after so many others. A sum stops at the last value of a count.
pub(crate) fn with_all(before: u64, lanes: &[Lanes<TcpOut, TcpIn>]) -> u64
    ensures { result ≡ capped_sum before (met lanes.now) }
{
    let mut sum = before;
    for own in lanes {
        sum = with_ins(with_outs(sum, &own.outs), &own.ins);
    }
    sum
}

/// A count with so many more, up to its last value.
pub(crate) fn add_faults(before: u64, more: u64) -> u64
    ensures sum { result ≡ capped_sum before more }
    ensures least { before ≤ result }
    ensures none { more ≡ 0 → result ≡ before }
    ensures some { 0 < more → Rose before result }
{
    before.saturating_add(more)
}
