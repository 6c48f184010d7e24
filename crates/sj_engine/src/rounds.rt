//! Batches one after another.
ghost use Rattle.std.specs.Prelude.{◌≡◌, IfErr, IfOk, None, Option, Some};
ghost use Rattle.sj_engine.specs.Batch.{SendsAll, StopsBy};
ghost use Rattle.sj_engine.specs.Home.{IsOutside};
ghost use Rattle.sj_engine.specs.Rounds.{GoesHome, Rounds, goes_on as may_go_on};
ghost use Rattle.sj_lang.specs.Place.{Place};
ghost use Rattle.sj_node.specs.Reading.{party_of};
ghost use Rattle.sj_rules.specs.Work.{LostAt};
ghost use Rattle.sj_work.specs.Causes.{Loses};
ghost use Rattle.sj_work.specs.Views.{node_of, out_of, stop_of};
ghost use Rattle.sj_work.specs.Worked.{kept_stop};

use crate::{ByteIn, ByteOut, SpellRefusal, batch, carry_home};
use sj_work::{Gate, Stop, Worker};
use std::alloc::Global;

/// Whether the party may go on by what it sent to itself.
fn goes_on(stop: Stop) -> bool
    ensures { result ≡ may_go_on stop }
{
    matches!(stop, Stop::Idle | Stop::AtLimit)
}

/// Carries what the party sent to itself. Answers whether there was something.
fn go_home(alloc: Global, worker: &mut Worker<ByteOut, ByteIn>) -> Result<bool, SpellRefusal>
    ensures goes { GoesHome worker.old worker.new }
    ensures unlawful { IfErr result (λ e. e ≡ SpellRefusal.Unlawful
        → IsOutside (out_of worker.new (party_of (node_of worker.old)))) }
{
    let party = worker.node().party();
    carry_home(alloc, worker.lanes(), party)
}

/// All that the party can do before it must wait for others. What it sends to itself comes in the
/// same call.
pub fn batches<G: Gate>(
    alloc: Global,
    worker: &mut Worker<ByteOut, ByteIn>,
    gate: &G,
) -> Result<Stop, SpellRefusal>
    ensures rounds { (lost : Option (LostAt Place)) × Loses lost (stop_of worker.new)
        × Rounds lost worker.old worker.new }
    ensures sent { IfOk result (λ s. SendsAll s worker.new) }
    ensures stop { IfOk result (λ s. stop_of worker.new ≡ Some s) }
    ensures cause { kept_stop (stop_of worker.old) ≡ None
        → IfOk result (λ s. (lost : Option (LostAt Place)) × Loses lost (Some s)
        × Rounds lost worker.old worker.new × StopsBy (Some s) lost worker.new) }
    ensures unlawful { IfErr result (λ e. e ≡ SpellRefusal.Unlawful
        → IsOutside (out_of worker.new (party_of (node_of worker.old)))) }
{
    for _ in 0..u64::MAX {
        let stop = batch(worker, gate);
        if !goes_on(stop) {
            return Ok(stop);
        }
        match go_home(alloc, worker) {
            Ok(true) => {}
            Ok(false) => return Ok(stop),
            Err(e) => return Err(e),
        }
    }
    // No memory holds the entries of so many batches.
    Err(SpellRefusal::NoMemory)
}
