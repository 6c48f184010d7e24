//! Accepted files that are run by a log.
ghost use Rattle.std.specs.Prelude.{◌≡◌, ◌≤◌, Bool, IfErr, IfOk, length, map};
ghost use Rattle.sj_check.specs.Held.{file_in};
ghost use Rattle.sj_core.specs.World.{history_of, kept_file, world_at};
ghost use Rattle.sj_end.specs.Lines.{line_at};
ghost use Rattle.sj_lang.specs.FileView.{file_of};
ghost use Rattle.sj_lang.specs.Limits.{source_limit};
ghost use Rattle.sj_plain.specs.SharedFile.{without_words};
ghost use Rattle.sj_print.specs.Version.{IsVersion};
ghost use Rattle.sj_command.specs.declared.tasks.Task.TheVariants as tasks;
ghost use Rattle.sj_tool.specs.Calls.{LinkUseAt};
ghost use Rattle.sj_tool.specs.LogAt.{Spells, log_at};
ghost use Rattle.sj_tool.specs.Replays.{IsRefusedBy};
ghost use Rattle.sj_tool.specs.Runs.{HasHistory, HasRun};

use crate::plans::Print;
use crate::plays::tell;
use sj_base::NoMemory;
use sj_check::Accepted;
use sj_core::{ReplayRefusal, World};
use sj_end::{Line, Misfit};
use sj_log::{LogRefusal, read_log};
use sj_semantics::Verdict;
use std::alloc::Global;

/// Why a log isn't replayed.
#[derive(Clone, Copy)]
pub(crate) enum ReplayFault {
    /// The first line that isn't in the grammar, and the rule that it breaks.
    Text { rule: u8, line: u32 },
    /// The first entry that isn't the one that is due.
    Entry(Misfit),
    NoMemory,
}

impl From<NoMemory> for ReplayFault {
    ghost use Rattle.std.specs.Prelude.{◌≡◌};
    ghost use Rattle.sj_tool.specs.declared.replays.ReplayFault.TheVariants as faults;

    ghost from_gives = { λ _ e. e ≡ faults.NoMemory };

    fn from(_: NoMemory) -> Self {
        ReplayFault::NoMemory
    }
}

impl From<ReplayRefusal> for ReplayFault {
    ghost use Rattle.std.specs.Prelude.{◌≡◌};
    ghost use Rattle.sj_tool.specs.Replays.{replay_fault};

    ghost from_gives = { λ refusal e. e ≡ replay_fault refusal };

    fn from(refusal: ReplayRefusal) -> Self {
        match refusal {
            ReplayRefusal::Misfit(misfit) => ReplayFault::Entry(misfit),
            ReplayRefusal::NoMemory => ReplayFault::NoMemory,
        }
    }
}

/// How the file ends, and its transcript, by the history that begins with the log of that version
/// and goes on with what is drained of it. That history is printed, too, where it is asked for.
pub(crate) fn replay(
    alloc: Global,
    accepted: &Accepted,
    prints: bool,
    version: u8,
    log: &[u8],
) -> Result<(Verdict, Vec<u8>), ReplayFault>
    requires version { IsVersion version }
    requires few { length log.now ≤ source_limit }
    ensures ran { IfOk result (λ p. (links : LinkUseAt)
        → HasRun links (tasks.Replay prints) (log_at version log.now) (file_of (file_in accepted.now)) p.0 p.1.items) }
    ensures refused { IfErr result (IsRefusedBy (file_of (file_in accepted.now)) (log_at version log.now)) }
{
    let world = drain_world(alloc, accepted, version, log)?;
    let answer = tell(alloc, accepted, Print::Transcript { log: prints }, &world)?;
    Ok(answer)
}

// The core world to which the log leads, after all that can still happen in it.
fn drain_world(
    alloc: Global,
    accepted: &Accepted,
    version: u8,
    log: &[u8],
) -> Result<World, ReplayFault>
    requires version { IsVersion version }
    requires few { length log.now ≤ source_limit }
    ensures has { IfOk result (λ w. (links : LinkUseAt) (l : Bool)
        → HasHistory links (tasks.Replay l) (log_at version log.now) (file_of (file_in accepted.now)) (history_of w) (world_at w)) }
    ensures kept { IfOk result (λ w. kept_file w ≡ without_words (file_of (file_in accepted.now))) }
    ensures refused { IfErr result (IsRefusedBy (file_of (file_in accepted.now)) (log_at version log.now)) }
{
    let lines = lines_of(alloc, accepted, version, log)?;
    let mut world = match World::replayed(alloc, accepted, lines) {
        Ok(world) => world,
        Err(refusal) => return Err(ReplayFault::from(refusal)),
    };
    world.drain()?;
    Ok(world)
}

// The lines of the log.
fn lines_of(
    alloc: Global,
    accepted: &Accepted,
    version: u8,
    log: &[u8],
) -> Result<Vec<Line>, ReplayFault>
    requires version { IsVersion version }
    requires few { length log.now ≤ source_limit }
    ensures spells { IfOk result (λ v. Spells (file_of (file_in accepted.now)) (log_at version log.now) (map line_at v.items)) }
    ensures refused { IfErr result (IsRefusedBy (file_of (file_in accepted.now)) (log_at version log.now)) }
{
    match read_log(alloc, log, accepted.file(), version) {
        Ok(lines) => Ok(lines),
        Err(LogRefusal::At { rule, line }) => Err(ReplayFault::Text { rule, line }),
        Err(LogRefusal::NoMemory) => Err(ReplayFault::NoMemory),
    }
}
