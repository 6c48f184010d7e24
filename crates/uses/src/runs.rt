//! An accepted file run by its parties, over rings or over links of the caller's own.
ghost use Rattle.std.specs.Prelude.{◌≡◌, ◌+◌, Err, IfErr, IfOk, length, map, max, take, true};
ghost use Rattle.sj_check.specs.Held.{file_in};
ghost use Rattle.sj_core.specs.World.{history_of, kept_file, world_at};
ghost use Rattle.sj_lane.specs.Told.{Rose};
ghost use Rattle.sj_lang.specs.FileView.{file_of};
ghost use Rattle.sj_plain.specs.SharedFile.{without_words};
ghost use Rattle.sj_rules.specs.Events.{acts_in};
ghost use Rattle.sj_rules.specs.History.{IsHistory, IsQuietAmong, turn_of};
ghost use Rattle.sj_rules.specs.Party.{play_of};
ghost use Rattle.sj_run.specs.Damage.{IsDamaged};
ghost use Rattle.sj_run.specs.Refusals.{IsDamagedOver};
ghost use Rattle.sj_run.specs.Workers.{AreLoggedOver};
ghost use Rattle.sj_semantics.specs.Run.{IsRun, end_of};
ghost use Rattle.uses.specs.Runs.{DrainsRest};

use porcharnica::{Accepted, Links, NoGate, RunRefusal, World, run_parties};
use std::alloc::Global;
use std::thread::Threads;

/// How often a party that has nothing to do looks for a frame before it stops.
const LOOKS: u32 = 1_000;

/// A file that was run to where nobody can act.
#[derive(Drop)]
pub struct Ran {
    pub world: World,
    /// How many events of the history the parties did over the links, the first ones.
    pub by_links: usize,
    /// How many the drain did after them. Over links that carry nothing these are all but those
    /// that need no frame.
    pub by_drain: usize,
}

/// Runs the parties of a file over these links, each on a thread of its own, joins what they noted,
/// and lets the drain do what they left. So a world may come though links that don't report lost
/// frames, even all of them; the two counts show it.
pub fn run_file<R: Threads + Sync, L: Links>(
    rt: &R,
    alloc: Global,
    accepted: &Accepted,
    links: &mut L,
) -> Result<Ran, RunRefusal>
    // A world of the file, and its history, after which nothing is left to do. Its acts end where
    // the file ends.
    ensures kept { IfOk result (λ r. kept_file r.world ≡ without_words (file_of (file_in accepted.now))) }
    ensures history { IfOk result (λ r. IsHistory max (file_of (file_in accepted.now))
        (history_of r.world) (world_at r.world)) }
    ensures quiet { IfOk result (λ r. IsQuietAmong (play_of (file_of (file_in accepted.now)))
        (length (file_of (file_in accepted.now)).parties) (world_at r.world)) }
    ensures end { IfOk result (λ r. IsRun (file_of (file_in accepted.now))
        (acts_in (map turn_of (history_of r.world))) (end_of (file_of (file_in accepted.now)))) }

    // The first events are the joined logs of workers that worked over these links, and the others
    // those of the drain.
    ensures counts { IfOk result (λ r. r.by_links + r.by_drain ≡ length (history_of r.world)) }
    ensures logged { IfOk result (λ r. AreLoggedOver L.Out.OutLane L.In.InLane L.joined
        (file_of (file_in accepted.now)) 1000 (L.tells links.old) (take r.by_links (history_of r.world))) }
    ensures drained { IfOk result (λ r. DrainsRest (file_of (file_in accepted.now)) r.by_links
        (history_of r.world) (world_at r.world)) }

    // A fault comes only where the links counted one. Damage is in what such workers left, and
    // comes only of links that don't report.
    ensures link_fault { result ≡ Err RunRefusal.LinkFault → Rose (L.faults links.old) (L.faults links.new) }
    ensures damaged { IfErr result (IsDamagedOver L.Out.OutLane L.In.InLane L.joined
        (file_of (file_in accepted.now)) 1000 (L.tells links.old)) }
    ensures telling { IfErr result (λ r. IsDamaged r → L.tells links.old ≡ true → ⊥) }
{
    let mut world = run_parties(rt, alloc, accepted, None, LOOKS, links, &NoGate)?;
    let by_links = world.history().len();
    world.drain()?;
    let in_all = world.history().len();
    let by_drain = in_all - by_links;
    Ok(Ran {
        world,
        by_links,
        by_drain,
    })
}
