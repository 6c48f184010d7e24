//! Accepted files that are run by their parties.
ghost use Rattle.std.specs.Prelude.{◌≡◌, Err, IfErr, IfOk, true};
ghost use Rattle.sj_check.specs.Held.{file_in};
ghost use Rattle.sj_core.specs.World.{history_of, kept_file, world_at};
ghost use Rattle.sj_command.specs.declared.tasks.Task.{Task};
ghost use Rattle.sj_lane.specs.Told.{Rose};
ghost use Rattle.sj_lang.specs.FileView.{file_of};
ghost use Rattle.sj_plain.specs.SharedFile.{without_words};
ghost use Rattle.sj_run.specs.Damage.{IsDamaged};
ghost use Rattle.sj_run.specs.Refusals.{IsDamagedOver};
ghost use Rattle.sj_tool.specs.LogAt.{LogAt};
ghost use Rattle.sj_tool.specs.Calls.{link_use};
ghost use Rattle.sj_tool.specs.LayersOver.{HasHistoryOver};
ghost use Rattle.sj_tool.specs.Over.{HasRunOver};
ghost use Rattle.sj_tool.specs.Plans.{RunsSo};
ghost use Rattle.sj_tool.specs.Tasks.{RunsParties, looks_of};
ghost use Rattle.sj_tool.specs.Runs.{HasRun};

use crate::plans::Running;
use crate::plays::tell;
use sj_check::Accepted;
use sj_core::World;
use sj_lane::Links;
use sj_run::{RunRefusal, run_parties};
use sj_semantics::Verdict;
use sj_work::Gate;
use std::alloc::Global;
use std::thread::Threads;

/// How the file ends, and what is printed of the history of its parties over those links, and of
/// what is drained of it.
pub(crate) fn run_file<R: Threads + Sync, L: Links, G: Gate>(
    rt: &R,
    alloc: Global,
    accepted: &Accepted,
    run: Running,
    links: &mut L,
    gate: &G,
) -> Result<(Verdict, Vec<u8>), RunRefusal>
    ensures ran { IfOk result (λ p. (task : Task) (log : LogAt) → RunsSo run task
        → HasRun (link_use L.Links links.old links.new) task log (file_of (file_in accepted.now)) p.0 p.1.items) }
    ensures over { IfOk result (λ p. (task : Task) (log : LogAt) → RunsSo run task
        → HasRunOver L.Out.OutLane L.In.InLane L.joined (link_use L.Links links.old links.new)
        task log (file_of (file_in accepted.now)) p.0 p.1.items) }
    ensures link_fault { result ≡ Err RunRefusal.LinkFault → Rose (L.faults links.old) (L.faults links.new) }
    ensures damaged { IfErr result (IsDamagedOver L.Out.OutLane L.In.InLane L.joined
        (file_of (file_in accepted.now)) run.looks (L.tells links.old)) }
    ensures telling { IfErr result (λ r. IsDamaged r → L.tells links.old ≡ true → ⊥) }
{
    let world = drain_world(rt, alloc, accepted, run.looks, run.workers, links, gate)?;
    let answer = tell(alloc, accepted, run.print, &world)?;
    Ok(answer)
}

// The core world that the parties left, after all that can still happen in it.
fn drain_world<R: Threads + Sync, L: Links, G: Gate>(
    rt: &R,
    alloc: Global,
    accepted: &Accepted,
    looks: u32,
    workers: Option<u16>,
    links: &mut L,
    gate: &G,
) -> Result<World, RunRefusal>
    ensures over { IfOk result (λ w. (task : Task) (log : LogAt) → RunsParties task → looks_of task ≡ looks
        → HasHistoryOver L.Out.OutLane L.In.InLane L.joined (link_use L.Links links.old links.new)
        task log (file_of (file_in accepted.now)) (history_of w) (world_at w)) }
    ensures kept { IfOk result (λ w. kept_file w ≡ without_words (file_of (file_in accepted.now))) }
    ensures link_fault { result ≡ Err RunRefusal.LinkFault → Rose (L.faults links.old) (L.faults links.new) }
    ensures damaged { IfErr result (IsDamagedOver L.Out.OutLane L.In.InLane L.joined
        (file_of (file_in accepted.now)) looks (L.tells links.old)) }
    ensures telling { IfErr result (λ r. IsDamaged r → L.tells links.old ≡ true → ⊥) }
{
    let mut world = match run_parties(rt, alloc, accepted, workers, looks, links, gate) {
        Ok(world) => world,
        Err(refusal) => return Err(refusal),
    };
    world.drain()?;
    Ok(world)
}
