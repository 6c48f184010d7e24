//! What answers a file that was read.
ghost use Rattle.std.specs.Prelude.{◌≤◌, ℕ, IfOk, length};
ghost use Rattle.sj_lang.specs.FileView.{file_of};
ghost use Rattle.sj_lang.specs.Limits.{limits, IsWithin, source_limit};
ghost use Rattle.sj_command.specs.declared.tasks.Task.{Task};
ghost use Rattle.sj_command.specs.declared.tasks.Task.TheVariants as tasks;
ghost use Rattle.sj_tool.specs.LogAt.{LogAt, log_at};
ghost use Rattle.sj_print.specs.Version.{IsVersion};
ghost use Rattle.sj_tool.specs.AnswerAt.{answer_at};
ghost use Rattle.sj_tool.specs.Answers.{AnswersFile};
ghost use Rattle.sj_tool.specs.Calls.{LinkUseAt, link_use};
ghost use Rattle.sj_tool.specs.Entries.{IsToldSo};
ghost use Rattle.sj_tool.specs.Outcomes.{IsJudged};
ghost use Rattle.sj_tool.specs.Plans.{RunsSo};
ghost use Rattle.sj_tool.specs.LayersOver.{ComesOfFile};
ghost use Rattle.sj_tool.specs.Replays.{IsToldFault};

use crate::answers::Answer;
use crate::counts::counts_text;
use crate::duals::shown_text;
use crate::entries::told_entry;
use crate::forests::forest_text;
use crate::forwards::forward;
use crate::plans::Running;
use crate::plays::simulate;
use crate::replays::{ReplayFault, replay};
use crate::runs::run_file;
use crate::talks::talk;
use sj_base::NoMemory;
use sj_check::{Accepted, CheckRefusal, check};
use sj_lane::Links;
use sj_lang::File;
use sj_run::RunRefusal;
use sj_work::Gate;
use std::alloc::Global;
use std::thread::Threads;

/// The protocols of a file, and their duals.
pub(crate) fn shown(alloc: Global, file: &File) -> Result<Answer, NoMemory>
    ensures { IfOk result (λ a. (links : LinkUseAt) (log : LogAt)
        → AnswersFile links tasks.Show log (file_of file.now) (answer_at a)) }
{
    Ok(Answer::Printed(shown_text(alloc, file)?))
}

/// The counts of a file, where it is accepted.
pub(crate) fn count(alloc: Global, file: File) -> Result<Answer, NoMemory>
    requires { IsWithin limits (file_of file) }
    ensures { IfOk result (λ a. (links : LinkUseAt) (log : LogAt)
        → AnswersFile links tasks.Check log (file_of file) (answer_at a)) }
{
    match judge(alloc, file)? {
        Judged::Accepted(accepted) => { Ok(Answer::Printed(counts_text(alloc, accepted.file())?)) }
        Judged::Fault(rule, line) => Ok(Answer::Check(rule, line)),
    }
}

/// Whether a file is a forest, where it is accepted.
pub(crate) fn shape(alloc: Global, file: File) -> Result<Answer, NoMemory>
    requires { IsWithin limits (file_of file) }
    ensures { IfOk result (λ a. (links : LinkUseAt) (log : LogAt)
        → AnswersFile links tasks.Forest log (file_of file) (answer_at a)) }
{
    match judge(alloc, file)? {
        Judged::Accepted(accepted) => Ok(Answer::Printed(forest_text(alloc, &accepted)?)),
        Judged::Fault(rule, line) => Ok(Answer::Check(rule, line)),
    }
}

/// How a file ends and its transcript, where it is accepted.
pub(crate) fn simulated_file(alloc: Global, file: File) -> Result<Answer, NoMemory>
    requires { IsWithin limits (file_of file) }
    ensures { IfOk result (λ a. (links : LinkUseAt) (log : LogAt)
        → AnswersFile links tasks.Sim log (file_of file) (answer_at a)) }
{
    match judge(alloc, file)? {
        Judged::Accepted(accepted) => {
            let (verdict, text) = simulate(alloc, &accepted)?;
            Ok(Answer::Ran(verdict, text))
        }
        Judged::Fault(rule, line) => Ok(Answer::Check(rule, line)),
    }
}

/// How a file ends, its transcript and how many frames were delivered, where it is accepted.
pub(crate) fn forwarded_file(alloc: Global, file: File) -> Result<Answer, NoMemory>
    requires { IsWithin limits (file_of file) }
    ensures { IfOk result (λ a. (links : LinkUseAt) (log : LogAt)
        → AnswersFile links tasks.Forward log (file_of file) (answer_at a)) }
{
    match judge(alloc, file)? {
        Judged::Accepted(accepted) => {
            let (verdict, text) = forward(alloc, &accepted)?;
            Ok(Answer::Ran(verdict, text))
        }
        Judged::Fault(rule, line) => Ok(Answer::Check(rule, line)),
    }
}

/// How a file ends in which these lines play the party of that number, and what is answered to
/// them.
pub(crate) fn talked_file(
    alloc: Global,
    file: File,
    party: u16,
    lines: &[u8],
) -> Result<Answer, NoMemory>
    requires { IsWithin limits (file_of file) }
    ensures { IfOk result (λ a. (links : LinkUseAt) (version : ℕ) → AnswersFile links (tasks.Talk party)
        (log_at version lines.now) (file_of file) (answer_at a)) }
{
    let accepted = match judge(alloc, file)? {
        Judged::Accepted(accepted) => accepted,
        Judged::Fault(rule, line) => return Ok(Answer::Check(rule, line)),
    };
    if party as usize >= accepted.file().parties.len() {
        return Ok(Answer::NoParty(party));
    }
    let (verdict, text) = talk(alloc, accepted, party, lines)?;
    Ok(Answer::Ran(verdict, text))
}

/// How a file ends that its parties run over those links, and what is printed of that.
pub(crate) fn ran_by_links<R: Threads + Sync, L: Links, G: Gate>(
    rt: &R,
    alloc: Global,
    file: File,
    run: Running,
    links: &mut L,
    gate: &G,
) -> Result<Answer, NoMemory>
    requires { IsWithin limits (file_of file) }
    ensures answer { IfOk result (λ a. (task : Task) (log : LogAt) → RunsSo run task
        → AnswersFile (link_use L.Links links.old links.new) task log (file_of file) (answer_at a)) }
    ensures over { IfOk result (λ a. (task : Task) → RunsSo run task → ComesOfFile L.Out.OutLane L.In.InLane L.joined
        (link_use L.Links links.old links.new) task (file_of file) (answer_at a)) }
{
    let accepted = match judge(alloc, file)? {
        Judged::Accepted(accepted) => accepted,
        Judged::Fault(rule, line) => return Ok(Answer::Check(rule, line)),
    };
    match run_file(rt, alloc, &accepted, run, links, gate) {
        Ok((verdict, text)) => Ok(Answer::Ran(verdict, text)),
        Err(refusal) => {
            let answer = refuse(alloc, accepted.file(), refusal)?;
            Ok(answer)
        }
    }
}

/// How a file ends that is run by that log of that version, and what is printed of that.
pub(crate) fn ran_by_log(
    alloc: Global,
    file: File,
    prints: bool,
    version: u8,
    log: &[u8],
) -> Result<Answer, NoMemory>
    requires within { IsWithin limits (file_of file) }
    requires version { IsVersion version }
    requires few { length log.now ≤ source_limit }
    ensures { IfOk result (λ a. (links : LinkUseAt) → AnswersFile links (tasks.Replay prints) (log_at version log.now)
        (file_of file) (answer_at a)) }
{
    let accepted = match judge(alloc, file)? {
        Judged::Accepted(accepted) => accepted,
        Judged::Fault(rule, line) => return Ok(Answer::Check(rule, line)),
    };
    match replay(alloc, &accepted, prints, version, log) {
        Ok((verdict, text)) => Ok(Answer::Ran(verdict, text)),
        Err(fault) => {
            let answer = not_replayed(alloc, accepted.file(), fault)?;
            Ok(answer)
        }
    }
}

// What is answered where the parties of a file couldn't be run.
fn refuse(alloc: Global, file: &File, refusal: RunRefusal) -> Result<Answer, NoMemory>
    ensures { IfOk result (λ a. IsToldSo (file_of file.now) refusal (answer_at a)) }
{
    match refusal {
        RunRefusal::LinkFault => Ok(Answer::LinkFault),
        RunRefusal::Damaged(misfit) => {
            let text = told_entry(alloc, b"damaged entry ", file, &misfit)?;
            Ok(Answer::Damaged(text))
        }
        RunRefusal::NoMemory => Err(NoMemory),
    }
}

// What is answered where a log couldn't be replayed.
fn not_replayed(alloc: Global, file: &File, fault: ReplayFault) -> Result<Answer, NoMemory>
    ensures { IfOk result (λ a. IsToldFault (file_of file.now) fault (answer_at a)) }
{
    match fault {
        ReplayFault::Text { rule, line } => Ok(Answer::LogFault(rule, line)),
        ReplayFault::Entry(misfit) => {
            let text = told_entry(alloc, b"log entry ", file, &misfit)?;
            Ok(Answer::Misfit(text))
        }
        ReplayFault::NoMemory => Err(NoMemory),
    }
}

// A file that was checked.
#[derive(Drop)]
enum Judged {
    Accepted(Accepted),
    Fault(u8, u32),
}

fn judge(alloc: Global, file: File) -> Result<Judged, NoMemory>
    requires { IsWithin limits (file_of file) }
    ensures { IfOk result (IsJudged file) }
{
    match check(alloc, file) {
        Ok(accepted) => Ok(Judged::Accepted(accepted)),
        Err((_, CheckRefusal::At { rule, line })) => Ok(Judged::Fault(rule.number(), line)),
        Err((_, CheckRefusal::NoMemory)) => Err(NoMemory),
    }
}
