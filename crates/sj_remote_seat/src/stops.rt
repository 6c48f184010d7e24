//! Whether the stop of a worker stays.
ghost use Rattle.std.specs.Prelude.{◌≡◌, IsFalse, None};
ghost use Rattle.sj_work.specs.Worked.{kept_stop};

use sj_work::Stop;

/// Whether the stop stays, since a frame may be lost.
pub(crate) fn stays(stop: Option<Stop>) -> bool
    ensures { IsFalse result → kept_stop stop ≡ None }
{
    matches!(stop, Some(Stop::NoMemory | Stop::Fault | Stop::Unfit))
}
