//! The acts of a history, done in the plain world.
ghost use Rattle.std.specs.Prelude.{◌≡◌, ◌<◌, IfOk, OnOk, Some, map};
ghost use Rattle.sj_check.specs.Held.{file_in};
ghost use Rattle.sj_end.specs.Lines.{event_at, line_at};
ghost use Rattle.sj_lang.specs.FileView.{file_of};
ghost use Rattle.sj_plain.specs.SharedFile.{without_words};
ghost use Rattle.sj_plain.specs.Plain.{acts_of, kept_file, world_at};
ghost use Rattle.sj_rules.specs.Events.{acts_by};
ghost use Rattle.sj_semantics.specs.Run.{IsRun, after_acts, end_of};
ghost use Rattle.sj_semantics.specs.State.{state_of};
ghost use Rattle.sj_semantics.specs.World.{act_of};
ghost use Rattle.sj_semantics.specs.declared.State.TheVariants.{Ready};
ghost use Rattle.sj_tool.specs.Acting.{IsReadyFor};
ghost use Rattle.sj_tool.specs.Runs.{actors};

use sj_base::NoMemory;
use sj_check::Accepted;
use sj_end::{Event, Line};
use sj_plain::{Halt, Plain};
use std::alloc::Global;

/// The plain world to which the acts of these lines lead: the end of the file.
pub(crate) fn act_all(alloc: Global, accepted: &Accepted, lines: &[Line]) -> Result<Plain, NoMemory>
    requires { IsRun (file_of (file_in accepted.now)) (actors (map line_at lines.now))
        (end_of (file_of (file_in accepted.now))) }
    ensures end { IfOk result (λ p. world_at p ≡ end_of (file_of (file_in accepted.now))) }
    ensures kept { IfOk result (λ p. kept_file p ≡ without_words (file_of (file_in accepted.now))) }
    ensures run { IfOk result (λ p. IsRun (kept_file p) (acts_of p) (world_at p)) }
{
    let mut plain = Plain::start(alloc, accepted)?;
    for line in lines {
        act_again(&mut plain, line)?;
    }
    Ok(plain)
}

// Does the act of a line, where it is one.
fn act_again(plain: &mut Plain, line: &Line) -> Result<(), NoMemory>
    requires { IsReadyFor (world_at plain.old) (event_at line.now.entry.event) line.now.party }
    ensures ok { OnOk result (after_acts (world_at plain.old)
        (acts_by (event_at line.now.entry.event) line.now.party) ≡ Some (world_at plain.new)) }
    ensures kept { kept_file plain.new ≡ kept_file plain.old }
    ensures run { IsRun (kept_file plain.old) (acts_of plain.old) (world_at plain.old)
        → IsRun (kept_file plain.new) (acts_of plain.new) (world_at plain.new) }
{
    match line.entry.event {
        Event::Act => act(plain, line.party),
        Event::Deliver(_) => Ok(()),
    }
}

// Does the next step of a party that is ready.
fn act(plain: &mut Plain, party: u16) -> Result<(), NoMemory>
    requires { state_of (world_at plain.old) party ≡ Ready }
    ensures ok { OnOk result (act_of (world_at plain.old) party ≡ Some (world_at plain.new)) }
    ensures kept { kept_file plain.new ≡ kept_file plain.old }
    ensures run { IsRun (kept_file plain.new) (acts_of plain.new) (world_at plain.new) }
{
    match plain.act(party) {
        Ok(()) => Ok(()),
        Err(Halt::NoMemory) => Err(NoMemory),
        // It is ready.
        Err(Halt::Waits) => unreachable!(),
        Err(Halt::Ended) => unreachable!(),
        Err(Halt::AtLimit) => unreachable!(),
    }
}
