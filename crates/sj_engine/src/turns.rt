//! What a party does until it must wait.
ghost use Rattle.std.specs.Prelude.{◌≡◌, None, Option, Some};
ghost use Rattle.sj_engine.specs.Batch.{Batch, SendsAll, StopsBy};
ghost use Rattle.sj_lang.specs.Place.{Place};
ghost use Rattle.sj_rules.specs.Work.{LostAt};
ghost use Rattle.sj_work.specs.Causes.{Loses};
ghost use Rattle.sj_work.specs.Views.{stop_of};
ghost use Rattle.sj_work.specs.Worked.{kept_stop};

use crate::{ByteIn, ByteOut};
use sj_work::{Gate, Stop, Worker, work};

/// All that the party can do before it must wait for bytes: its entries come after those of its log,
/// and its frames after those on its lanes. What it sends to itself waits on its lane to itself.
pub fn batch<G: Gate>(worker: &mut Worker<ByteOut, ByteIn>, gate: &G) -> Stop
    ensures batch { (lost : Option (LostAt Place)) × Loses lost (stop_of worker.new)
        × Batch lost worker.old worker.new
        × (kept_stop (stop_of worker.old) ≡ None → StopsBy (stop_of worker.new) lost worker.new) }
    ensures sent { SendsAll result worker.new }
    ensures stop { stop_of worker.new ≡ Some result }
{
    work(worker, 1, gate)
}
