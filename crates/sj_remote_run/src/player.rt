//! A party that is played, and all that it can do before it must wait.
ghost use Rattle.std.specs.Prelude.{◌≡◌, IfErr, IfOk};
ghost use Rattle.sj_remote_run.specs.Stuck.{IsStuck};
ghost use Rattle.sj_remote_run.specs.Turns.{Goes, outcome_by};

use crate::causes::spell_means;
use crate::posts::push_all;
use crate::{Outcome, PlayRefusal};
use sj_end::Entry;
use sj_engine::{ByteIn, ByteOut, batches};
use sj_lane::Lanes;
use sj_node::Node;
use sj_work::{NoGate, Stop, Worker};
use std::alloc::Global;

/// A party that is played: its node and its lanes.
#[derive(Drop)]
pub struct Player {
    pub node: Node,
    pub lanes: Lanes<ByteOut, ByteIn>,
}

/// How a party stands that can't go on by itself, where none of its causes is a refusal.
pub fn stands(stop: Stop, finished: bool) -> Result<Outcome, PlayRefusal>
    ensures outcome { result ≡ outcome_by stop finished }
{
    match stop {
        Stop::Finished | Stop::Idle if finished => Ok(Outcome::Ended),
        Stop::Finished | Stop::Idle => Ok(Outcome::Waits),
        Stop::AtLimit | Stop::ClockEnd => Ok(Outcome::Limit),
        Stop::NoMemory => Err(PlayRefusal::NoMemory),
        Stop::Fault => Err(PlayRefusal::NoFrame),
        Stop::Unfit => Err(PlayRefusal::Unfit),
    }
}

impl Player {
    /// All that the party can do before it must wait. Answers how it stands, and what it noted.
    pub(crate) fn go(self, alloc: Global) -> Result<(Player, Outcome, Vec<Entry>), PlayRefusal>
        ensures goes { IfOk result (λ r. Goes self r.0 r.1 r.2.items) }
        ensures refused { IfErr result (IsStuck self) }
    {
        let mut worker = Worker::new(self.node, self.lanes);
        let stop = match batches(alloc, &mut worker, &NoGate) {
            Ok(stop) => stop,
            Err(e) => return Err(spell_means(e)),
        };
        let (mut lanes, mut node, noted) = worker.into_parts();
        // At the end of its clock a worker stops with frames that no lane has.
        push_all(alloc, &mut node, &mut lanes)?;
        let outcome = stands(stop, node.finished())?;
        Ok((Player { node, lanes }, outcome, noted))
    }
}
