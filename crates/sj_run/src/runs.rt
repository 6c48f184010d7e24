//! A file run by its parties.
ghost use Rattle.std.specs.Prelude.{◌≡◌, ◌≤◌, Err, IfErr, IfOk, Some, false, length, max, true};
ghost use Rattle.sj_check.specs.Held.{file_in as held};
ghost use Rattle.sj_core.specs.World.{history_of, kept_file, party_count, world_at};
ghost use Rattle.sj_end.specs.Lines.{event_at, line_at};
ghost use Rattle.sj_lane.specs.Told.{Rose};
ghost use Rattle.sj_lang.specs.FileView.{file_of};
ghost use Rattle.sj_plain.specs.SharedFile.{without_words};
ghost use Rattle.sj_rules.specs.History.{IsHistory, due};
ghost use Rattle.sj_rules.specs.Party.{play_of};
ghost use Rattle.sj_run.specs.Damage.{IsDamaged};
ghost use Rattle.sj_run.specs.Refusals.{IsDamagedOver, IsPastEndOf};
ghost use Rattle.sj_run.specs.Shown.{IsShown, keeps_of};
ghost use Rattle.sj_run.specs.Workers.{AreLoggedOver};

use crate::RunRefusal;
use crate::handed::hand_in;
use crate::remains::take_apart;
use crate::stops::{any_faulty, any_short, first_unfit};
use crate::teams::set_to_work;
use sj_base::NoMemory;
use sj_check::Accepted;
use sj_core::{World, join_logs};
use sj_end::{Line, Misfit};
use sj_lane::Links;
use sj_work::Gate;
use std::alloc::Global;
use std::thread::Threads;

// Why a worker that refused an event after the lines of this history makes them damaged.
fn past_end(world: &World, refused: Line) -> RunRefusal
    requires { due (play_of (kept_file world.now)) max (world_at world.now) refused.party (event_at refused.entry.event)
        ≡ Some (line_at refused) → ⊥ }
    ensures { IsPastEndOf (kept_file world.now) (world_at world.now) (history_of world.now) refused result }
{
    let due = world.due(refused.party, refused.entry.event);
    RunRefusal::Damaged(Misfit {
        number: world.history().len() as u64 + 1,
        logged: refused,
        due,
    })
}

// Whether no worker stopped at a fault, out of memory or as unfit.
fn all_well(faulty: bool, short: bool, unfit: &Option<Line>) -> bool
    ensures { result ≡ true → (faulty ≡ false) × (short ≡ false) }
{
    !faulty && !short && unfit.is_none()
}

/// Runs a file by its parties, over lanes that the links make. Without a number each runs on a
/// thread of its own where one can be had. With a number they run on a pool of so many threads (0
/// as 1) that take each other's work. They go in rounds there, until one without an event, and one
/// more. Their logs, joined, become the history of a core world.
///
/// Where links hand over what waits on them, that world is put together of the parties' nodes and
/// what waits, and no event is done again. Where a worker stopped at a fault of a lane, the answer
/// is `LinkFault`, and nothing is put together or replayed. Else the logs are replayed where there
/// are no parties, where links hand over nothing, where a Give waits, or where a worker stopped out
/// of memory or as unfit.
///
/// A worker that ran out of memory makes the whole answer `NoMemory`, unless the links met a fault
/// or the logs are damaged.
pub fn run_parties<R: Threads + Sync, L: Links, G: Gate>(
    rt: &R,
    alloc: Global,
    accepted: &Accepted,
    threads: Option<u16>,
    looks: u32,
    links: &mut L,
    gate: &G,
) -> Result<World, RunRefusal>
    // A world of the file, to which its history leads.
    ensures kept { IfOk result (λ w. kept_file w ≡ without_words (file_of (held accepted.now))) }
    ensures run { IfOk result (λ w. IsHistory max (kept_file w) (history_of w) (world_at w)) }
    ensures parties { IfOk result (λ w. party_count w ≡ length (kept_file w).parties) }

    // Its history is the joined logs of workers that worked over lanes of these links, of which
    // none stopped at a fault, out of memory or as unfit.
    ensures logged { IfOk result (λ w. AreLoggedOver L.Out.OutLane L.In.InLane L.joined
        (file_of (held accepted.now)) looks (L.tells links.old) (history_of w)) }

    // Links that report show its history, in which nobody could go on alone.
    ensures shown { IfOk result (λ w. L.tells links.old ≡ true →
        IsShown (file_of (held accepted.now)) looks (keeps_of L.sent L.got L.vain_out L.vain_in links.new)
        (history_of w) (world_at w)) }

    // A fault comes only where the links counted one. Damage is in what workers left that worked
    // over lanes of these links, of which none stopped at a fault. It comes only of links that
    // don't report.
    ensures link_fault { result ≡ Err RunRefusal.LinkFault → Rose (L.faults links.old) (L.faults links.new) }
    ensures damaged { IfErr result (IsDamagedOver L.Out.OutLane L.In.InLane L.joined
        (file_of (held accepted.now)) looks (L.tells links.old)) }
    ensures telling { IfErr result (λ r. IsDamaged r → L.tells links.old ≡ true → ⊥) }

    // What the links are stays, and their count of faults doesn't fall.
    ensures tells { L.tells links.new ≡ L.tells links.old }
    ensures faults { L.faults links.old ≤ L.faults links.new }
{
    let workers = set_to_work(rt, alloc, accepted, threads, looks, links, gate)?;
    let faulty = any_faulty(&workers);
    let short = any_short(&workers);
    let unfit = first_unfit(&workers);
    let remains = take_apart(alloc, workers)?;
    let mut lanes = remains.lanes;
    let asked = all_well(faulty, short, &unfit);
    let whole = hand_in(alloc, asked, links, &mut lanes, remains.nodes)?;
    links.back(lanes);
    let lines = join_logs(alloc, remains.logs)?;
    if faulty {
        return Err(RunRefusal::LinkFault);
    }
    if let Some(nodes) = whole {
        let world = World::assembled(alloc, accepted, nodes, lines)?;
        return Ok(world);
    }
    let world = match World::replayed(alloc, accepted, lines) {
        Ok(world) => world,
        Err(refusal) => return Err(RunRefusal::from(refusal)),
    };
    if let Some(refused) = unfit {
        return Err(past_end(&world, refused));
    }
    if short {
        return Err(RunRefusal::NoMemory);
    }
    Ok(world)
}
