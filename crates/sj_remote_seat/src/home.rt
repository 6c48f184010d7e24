//! What a party that code plays sends to itself.
ghost use Rattle.std.specs.Prelude.{IfOk};
ghost use Rattle.sj_engine.specs.Rounds.{GoesHome};
ghost use Rattle.sj_remote_seat.specs.Turns.{Turns};

use crate::seat::Seat;
use sj_engine::{ByteIn, ByteOut, SpellRefusal, carry_home};
use sj_remote_run::{PlayRefusal, spell_means};
use sj_work::Worker;
use std::alloc::Global;

/// Carries what the worker's party sent to itself. Answers whether there was something.
fn carry(alloc: Global, worker: &mut Worker<ByteOut, ByteIn>) -> Result<bool, SpellRefusal>
    ensures { GoesHome worker.old worker.new }
{
    let party = worker.node().party();
    carry_home(alloc, worker.lanes(), party)
}

/// Carries what the party sent to itself. Answers whether there was something.
pub(crate) fn go_home(alloc: Global, seat: Seat<'_>) -> Result<(Seat<'_>, bool), PlayRefusal>
    ensures { IfOk result (λ r. Turns seat.entry r.0) }
{
    let (mut worker, holdings) = seat.into_parts();
    match carry(alloc, &mut worker) {
        Ok(carried) => Ok((holdings.with_worker(worker), carried)),
        Err(e) => Err(spell_means(e)),
    }
}
