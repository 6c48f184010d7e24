//! Accepted files that are played to their end: in the plain world, or by the acts of a history.
ghost use Rattle.std.specs.Prelude.{◌≡◌, ◌≤◌, ◌++◌, [], IfOk, length, map, max};
ghost use Rattle.sj_acceptance.specs.Accepted.{IsAccepted};
ghost use Rattle.sj_check.specs.Held.{file_in};
ghost use Rattle.sj_core.specs.ToldWorld.{IsQuietOf};
ghost use Rattle.sj_core.specs.World.{history_of, kept_file as kept_in, world_at};
ghost use Rattle.sj_end.specs.Lines.{line_at};
ghost use Rattle.sj_lang.specs.FileAt.{FileAt};
ghost use Rattle.sj_lang.specs.FileView.{file_of};
ghost use Rattle.sj_lang.specs.Limits.{limits};
ghost use Rattle.sj_plain.specs.SharedFile.{without_words};
ghost use Rattle.sj_plain.specs.Plain.{acts_of, kept_file, world_at as plain_at};
ghost use Rattle.sj_rules.specs.History.{IsHistory, IsQuietAmong};
ghost use Rattle.sj_rules.specs.Party.{play_of};
ghost use Rattle.sj_semantics.specs.Run.{IsRun, end_of};
ghost use Rattle.sj_semantics.specs.State.{opened_in};
ghost use Rattle.sj_semantics.specs.Transcript.{transcript_of};
ghost use Rattle.sj_semantics.specs.World.{World as PlainWorld};
ghost use Rattle.sj_tool.specs.Telling.{IsToldIn};
ghost use Rattle.sj_tool.specs.Runs.{HasSimulated, IsTold, log_part, run_text};

use crate::acts::act_all;
use crate::histories::put_log;
use crate::plans::Print;
use crate::sums::{summary_text, sums_text};
use sj_base::NoMemory;
use sj_check::Accepted;
use sj_core::World;
use sj_end::Line;
use sj_lang::File;
use sj_plain::Plain;
use sj_print::{print_told, print_transcript};
use sj_semantics::Verdict;
use sj_told::{Stand, ends_told, verdict_told};
use std::alloc::Global;

/// How the file ends, and its transcript: the parties act in the plain world until nobody can.
pub(crate) fn simulate(alloc: Global, accepted: &Accepted) -> Result<(Verdict, Vec<u8>), NoMemory>
    ensures { IfOk result (λ p. HasSimulated (file_of (file_in accepted.now)) p.0 p.1.items) }
{
    let mut plain = Plain::start(alloc, accepted)?;
    plain.finish()?;
    let mut text = Vec::new(alloc);
    print_transcript(&mut text, accepted.file(), &plain)?;
    Ok((plain.verdict(), text))
}

/// How the file ends, and what is printed of a history that leaves nothing to do, as the history
/// and the nodes report it. Where sessions were opened, whose names no line reports, it is as the
/// acts make it in the plain world.
pub(crate) fn tell(
    alloc: Global,
    accepted: &Accepted,
    print: Print,
    world: &World,
) -> Result<(Verdict, Vec<u8>), NoMemory>
    requires kept { kept_in world.now ≡ without_words (file_of (file_in accepted.now)) }
    requires run { IsHistory max (file_of (file_in accepted.now)) (history_of world.now) (world_at world.now) }
    requires quiet { IsQuietAmong (play_of (file_of (file_in accepted.now)))
        (length (file_of (file_in accepted.now)).parties) (world_at world.now) }
    ensures told { IfOk result (λ p. IsTold print (file_of (file_in accepted.now)) (history_of world.now) p.0 p.1.items) }
    ensures accepted { IfOk result (λ p. IsAccepted (file_of (file_in accepted.now))) }
{
    if world.opens() {
        tell_acts(alloc, accepted, print, world)
    } else {
        tell_notes(alloc, accepted, print, world)
    }
}

// The acts are done in the plain world.
fn tell_acts(
    alloc: Global,
    accepted: &Accepted,
    print: Print,
    world: &World,
) -> Result<(Verdict, Vec<u8>), NoMemory>
    requires run { IsHistory max (file_of (file_in accepted.now)) (history_of world.now) (world_at world.now) }
    requires quiet { IsQuietAmong (play_of (file_of (file_in accepted.now)))
        (length (file_of (file_in accepted.now)).parties) (world_at world.now) }
    ensures told { IfOk result (λ p. IsTold print (file_of (file_in accepted.now)) (history_of world.now) p.0 p.1.items) }
    ensures accepted { IfOk result (λ p. IsAccepted (file_of (file_in accepted.now))) }
{
    let file = accepted.file();
    let plain = act_all(alloc, accepted, world.history())?;
    let text = text_for(alloc, file, print, world.history(), &plain)?;
    Ok((plain.verdict(), text))
}

// The notes of the history report what was sent and taken, and the nodes how the parties stand.
fn tell_notes(
    alloc: Global,
    accepted: &Accepted,
    print: Print,
    world: &World,
) -> Result<(Verdict, Vec<u8>), NoMemory>
    requires kept { kept_in world.now ≡ without_words (file_of (file_in accepted.now)) }
    requires run { IsHistory max (file_of (file_in accepted.now)) (history_of world.now) (world_at world.now) }
    requires quiet { IsQuietAmong (play_of (file_of (file_in accepted.now)))
        (length (file_of (file_in accepted.now)).parties) (world_at world.now) }
    requires none { (file : FileAt) → IsQuietOf file world.now → opened_in (end_of file) ≡ [] }
    ensures told { IfOk result (λ p. IsTold print (file_of (file_in accepted.now)) (history_of world.now) p.0 p.1.items) }
    ensures accepted { IfOk result (λ p. IsAccepted (file_of (file_in accepted.now))) }
{
    let file = accepted.file();
    let stands = world.stands(alloc)?;
    let text = noted_text(alloc, file, print, world.history(), &stands)?;
    Ok((verdict_told(&stands), text))
}

// What is printed of that history, and of the plain world to which its acts lead.
fn text_for(
    alloc: Global,
    file: &File,
    print: Print,
    lines: &[Line],
    plain: &Plain,
) -> Result<Vec<u8>, NoMemory>
    requires parties { length (file_of file.now).parties ≤ limits.parties }
    requires connects { length (file_of file.now).connects ≤ limits.connects }
    requires kept { kept_file plain.now ≡ without_words (file_of file.now) }
    requires run { IsRun (kept_file plain.now) (acts_of plain.now) (plain_at plain.now) }
    ensures { IfOk result (λ text. text.items
        ≡ run_text print (file_of file.now) (map line_at lines.now) (plain_at plain.now)) }
{
    match print {
        Print::Transcript { log } => logged_text(alloc, file, lines, plain, log),
        Print::Sums(n) => summary_text(alloc, n, file, plain),
    }
}

// What is printed of the end that those lines report.
fn noted_text(
    alloc: Global,
    file: &File,
    print: Print,
    lines: &[Line],
    stands: &[Stand],
) -> Result<Vec<u8>, NoMemory>
    requires connects { length (file_of file.now).connects ≤ limits.connects }
    requires parties { length stands.now ≡ length (file_of file.now).parties }
    ensures { IfOk result (λ text. (w : PlainWorld) → IsToldIn (file_of file.now) (map line_at lines.now) stands.now w →
        text.items ≡ run_text print (file_of file.now) (map line_at lines.now) w) }
{
    match print {
        Print::Transcript { log } => listed_text(alloc, file, lines, stands, log),
        Print::Sums(n) => sums_text(alloc, n, file, lines, stands),
    }
}

// The transcript as the lines report it, and after it the history where the log is asked for.
fn listed_text(
    alloc: Global,
    file: &File,
    lines: &[Line],
    stands: &[Stand],
    log: bool,
) -> Result<Vec<u8>, NoMemory>
    requires connects { length (file_of file.now).connects ≤ limits.connects }
    requires parties { length stands.now ≡ length (file_of file.now).parties }
    ensures { IfOk result (λ text. (w : PlainWorld) → IsToldIn (file_of file.now) (map line_at lines.now) stands.now w →
        text.items ≡ transcript_of (file_of file.now) w
        ++ log_part log (file_of file.now) (map line_at lines.now)) }
{
    let ends = ends_told(alloc, file.connects.len(), lines)?;
    let mut text = Vec::new(alloc);
    print_told(&mut text, file, &ends, stands)?;
    put_log(&mut text, file, lines, log)?;
    Ok(text)
}

// The transcript, and after it the history where the log is asked for.
fn logged_text(
    alloc: Global,
    file: &File,
    lines: &[Line],
    plain: &Plain,
    log: bool,
) -> Result<Vec<u8>, NoMemory>
    requires parties { length (file_of file.now).parties ≤ limits.parties }
    requires connects { length (file_of file.now).connects ≤ limits.connects }
    requires kept { kept_file plain.now ≡ without_words (file_of file.now) }
    requires run { IsRun (kept_file plain.now) (acts_of plain.now) (plain_at plain.now) }
    ensures { IfOk result (λ text. text.items ≡ transcript_of (file_of file.now) (plain_at plain.now)
        ++ log_part log (file_of file.now) (map line_at lines.now)) }
{
    let mut text = Vec::new(alloc);
    print_transcript(&mut text, file, plain)?;
    put_log(&mut text, file, lines, log)?;
    Ok(text)
}
