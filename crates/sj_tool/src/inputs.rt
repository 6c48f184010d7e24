//! From the words and the input to the answer.
ghost use Rattle.std.specs.Prelude.{◌≡◌, ◌≤◌, IfOk, IfSome, None, length};
ghost use Rattle.sj_command.specs.declared.tasks.Task.{Task as AnyTask};
ghost use Rattle.sj_generator.specs.Generated.{generated};
ghost use Rattle.sj_tool.specs.AnswerAt.{answer_at};
ghost use Rattle.sj_tool.specs.Answers.{IsInTable};
ghost use Rattle.sj_tool.specs.Layers.{AnswersBytes, AnswersText};
ghost use Rattle.sj_tool.specs.LayersOver.{ComesIn, ComesOf};
ghost use Rattle.sj_tool.specs.Calls.{call, link_use};
ghost use Rattle.sj_tool.specs.LogAt.{log_at};
ghost use Rattle.sj_tool.specs.Plans.{DoesSo, most_of};
ghost use Rattle.sj_tool.specs.TalkParts.{HasNoTalk, IsTalk};
ghost use Rattle.sj_tool.specs.Tasks.{AsksFor, Reads, RunsParties};
ghost use Rattle.sj_tool.specs.Texts.{IsReadWhole};
ghost use Rattle.sj_print.specs.Version.{IsVersion};
ghost use Rattle.sj_lang.specs.Limits.{file_limit, source_limit};

use crate::answers::Answer;
use crate::files::{
    count, forwarded_file, ran_by_links, ran_by_log, shape, shown, simulated_file, talked_file,
};
use crate::plans::{Plan, Play, plan_of};
use sj_base::{NoMemory, ReadRefusal, Source, read_all};
use sj_command::task_in;
use sj_generator::print_generated;
use sj_lane::Links;
use sj_log::{find_line, parted};
use sj_party::parse_file;
use sj_proto::ParseRefusal;
use sj_work::Gate;
use std::alloc::Global;
use std::thread::Threads;

/// The most bytes of a file.
const MAX_FILE: usize = 65_536;

/// The most bytes of a file with the log after it.
const MAX_SOURCE: usize = 16_777_216;

/// The answer to the words and the input.
pub(crate) fn answer_to<R: Threads + Sync, S: Source, L: Links, G: Gate>(
    rt: &R,
    alloc: Global,
    words: &[String],
    src: &mut S,
    links: &mut L,
    gate: &G,
) -> Result<Answer, NoMemory>
    ensures answer { IfOk result (λ a. IsInTable
        (call S.Source L.Links words.now src.old src.new links.old links.new) (answer_at a)) }
    ensures over { IfOk result (λ a. ComesOf L.Out.OutLane L.In.InLane L.joined
        (call S.Source L.Links words.now src.old src.new links.old links.new) (answer_at a)) }
    ensures ended { IfOk result (λ a. IsReadWhole (answer_at a)
        → AsksFor Reads (call S.Source L.Links words.now src.old src.new links.old links.new)
        → S.has_ended src.new) }
    ensures unused { (AsksFor RunsParties (call S.Source L.Links words.now src.old src.new links.old links.new) → ⊥)
        → links.new ≡ links.old }
{
    let Some(task) = task_in(alloc, words)? else {
        return Ok(Answer::Usage);
    };
    match plan_of(task) {
        Plan::Make(n) => Ok(Answer::Made(generated_text(alloc, n)?)),
        Plan::Made(n, play) => {
            let text = generated_text(alloc, n)?;
            answer_to_bytes(rt, alloc, play, &text, links, gate)
        }
        Plan::Read(play) => match read_all(alloc, src, limit_in(play)) {
            Ok(bytes) => answer_to_bytes(rt, alloc, play, &bytes, links, gate),
            Err(ReadRefusal::ReadFault) => Ok(Answer::ReadFault),
            Err(ReadRefusal::TooLarge) => Ok(Answer::TooLarge),
            Err(ReadRefusal::NoMemory) => Err(NoMemory),
        },
    }
}

// The most bytes of what is read.
fn limit_in(play: Play) -> usize
    ensures { result ≡ most_of play }
{
    match play {
        Play::Replay { .. } | Play::Talk(_) => MAX_SOURCE,
        _ => MAX_FILE,
    }
}

// The text of the generated file.
fn generated_text(alloc: Global, n: u16) -> Result<Vec<u8>, NoMemory>
    ensures { IfOk result (λ text. text.items ≡ generated n) }
{
    let mut text = Vec::new(alloc);
    print_generated(&mut text, n)?;
    Ok(text)
}

// The answer to the bytes. Of a replay the first line `%%log` or `%%log2` splits them into a file
// and a log, and names the log's version. Of a talk the first line `%%talk` splits them into a file
// and lines.
fn answer_to_bytes<R: Threads + Sync, L: Links, G: Gate>(
    rt: &R,
    alloc: Global,
    play: Play,
    bytes: &[u8],
    links: &mut L,
    gate: &G,
) -> Result<Answer, NoMemory>
    requires { length bytes.now ≤ most_of play }
    ensures answer { IfOk result (λ a. (task : AnyTask) → DoesSo play task
        → AnswersBytes (link_use L.Links links.old links.new) task bytes.now (answer_at a)) }
    ensures over { IfOk result (λ a. (task : AnyTask) → DoesSo play task → ComesIn L.Out.OutLane L.In.InLane L.joined
        (link_use L.Links links.old links.new) task bytes.now (answer_at a)) }
    ensures unused { (task : AnyTask) → DoesSo play task → (RunsParties task → ⊥) → links.new ≡ links.old }
{
    match play {
        Play::Replay { .. } => {
            let Some((text, version, log)) = parted(bytes) else {
                return Ok(Answer::LogFault(1, 0));
            };
            if text.len() > MAX_FILE {
                return Ok(Answer::TooLarge);
            }
            let answer = answer_to_text(rt, alloc, play, text, version, log, links, gate)?;
            Ok(answer)
        }
        Play::Talk(_) => {
            let Some((text, lines)) = parted_talk(bytes) else {
                return Ok(Answer::NoTalk);
            };
            if text.len() > MAX_FILE {
                return Ok(Answer::TooLarge);
            }
            let answer = answer_to_text(rt, alloc, play, text, 1, lines, links, gate)?;
            Ok(answer)
        }
        _ => {
            let answer = answer_to_text(rt, alloc, play, bytes, 1, b"", links, gate)?;
            Ok(answer)
        }
    }
}

// The text of the file and the lines of a talk, split at the first line `%%talk`.
fn parted_talk(bytes: &[u8]) -> Option<(&[u8], &[u8])>
    ensures some { IfSome result (λ p. IsTalk bytes.now p.0.now p.1.now) }
    ensures none { result ≡ None → HasNoTalk bytes.now }
{
    match find_line(bytes, b"%%talk\n", b"\n%%talk\n") {
        Some(at) => Some((&bytes[..at], &bytes[at + 7..])),
        None => None,
    }
}

// The answer to the text of a file, and a log of that version where one is replayed, or lines that
// play a party.
fn answer_to_text<R: Threads + Sync, L: Links, G: Gate>(
    rt: &R,
    alloc: Global,
    play: Play,
    text: &[u8],
    version: u8,
    log: &[u8],
    links: &mut L,
    gate: &G,
) -> Result<Answer, NoMemory>
    requires few { length text.now ≤ file_limit }
    requires version { IsVersion version }
    requires log { length log.now ≤ source_limit }
    ensures answer { IfOk result (λ a. (task : AnyTask) → DoesSo play task
        → AnswersText (link_use L.Links links.old links.new) task (log_at version log.now) text.now (answer_at a)) }
    ensures over { IfOk result (λ a. (task : AnyTask) → DoesSo play task → ComesIn L.Out.OutLane L.In.InLane L.joined
        (link_use L.Links links.old links.new) task text.now (answer_at a)) }
    ensures unused { (task : AnyTask) → DoesSo play task → (RunsParties task → ⊥) → links.new ≡ links.old }
{
    let file = match parse_file(alloc, text) {
        Ok(file) => file,
        Err(ParseRefusal::At(fault)) => return Ok(Answer::Syntax(fault)),
        Err(ParseRefusal::NoMemory) => return Err(NoMemory),
    };
    match play {
        Play::Check => count(alloc, file),
        Play::Show => shown(alloc, &file),
        Play::Forest => shape(alloc, file),
        Play::Sim => simulated_file(alloc, file),
        Play::Forward => forwarded_file(alloc, file),
        Play::Run(run) => ran_by_links(rt, alloc, file, run, links, gate),
        Play::Replay { prints } => ran_by_log(alloc, file, prints, version, log),
        Play::Talk(party) => talked_file(alloc, file, party, log),
    }
}
