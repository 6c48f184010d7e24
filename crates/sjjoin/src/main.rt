//! `sjjoin`: prints what the parties of a run at a stream server did, joined.
#![tactic(auto)]

ghost use Rattle.sj_join.specs.Finding.{IsFoundWithin};

use sj_base::{MemSource, NoMemory, ReadSource, WriteSink, write_all_of};
use sj_check::check;
use sj_join::{
    Asked, Found, JoinRefusal, Task, asked_in, drop_run, find, now_in, put_source, sign_in,
};
use sj_lane::RingLinks;
use sj_remote::{Conn, TalkRefusal};
use sj_semantics::Verdict;
use sj_streams::Refusal;
use sj_text::{NO_MEMORY, WRITE_FAULT, put, put_number};
use sj_tool::sj;
use sj_work::NoGate;
use std::env;
use std::io::{ErrorKind, Read, Write};
use std::net::{OpenStream, TcpStream};
use std::process::ExitCode;
use std::time::Duration;

/// So long a server may take for an answer.
const PATIENCE: u64 = 30;

/// What is left to do.
#[derive(Drop)]
enum Answer {
    /// A text is printed, and a status answered.
    Said(u8, Vec<u8>),
    /// The source is replayed.
    Replay { source: Vec<u8>, log: bool },
}

fn main(rt: HostRuntime) -> ExitCode {
    let words = match words_of(&rt) {
        Ok(words) => words,
        Err(NoMemory) => return ExitCode::from(NO_MEMORY),
    };
    let answer = match answer_to(&rt, &words) {
        Ok(answer) => answer,
        Err(NoMemory) => return ExitCode::from(NO_MEMORY),
    };
    let mut out = WriteSink::new(rt.stdout());
    match answer {
        Answer::Said(status, text) => match write_all_of(&mut out, &text) {
            Ok(()) => ExitCode::from(status),
            Err(_) => ExitCode::from(WRITE_FAULT),
        },
        Answer::Replay { source, log } => {
            let words = match replay_words(&rt, log) {
                Ok(words) => words,
                Err(NoMemory) => return ExitCode::from(NO_MEMORY),
            };
            let mut src = MemSource::new(source, Vec::new(rt.alloc()));
            let mut links = RingLinks::new();
            ExitCode::from(sj(
                &rt,
                rt.alloc(),
                &words,
                &mut src,
                &mut out,
                &mut links,
                &NoGate,
            ))
        }
    }
}

// The words after the program's name. Words that aren't text are none of the program's, as an empty
// one is.
fn words_of(rt: &HostRuntime) -> Result<Vec<String>, NoMemory> {
    match env::args(rt) {
        Ok(args) => Ok(args.skip(1).collect(rt.alloc())?),
        Err(e) if e.kind() == ErrorKind::OutOfMemory => Err(NoMemory),
        Err(_) => {
            let mut words = Vec::new(rt.alloc());
            words.push(String::new(rt.alloc()))?;
            Ok(words)
        }
    }
}

fn replay_words(rt: &HostRuntime, log: bool) -> Result<Vec<String>, NoMemory> {
    let mut words = Vec::new(rt.alloc());
    words.push(String::from_str(rt.alloc(), "replay")?)?;
    if log {
        words.push(String::from_str(rt.alloc(), "--log")?)?;
    }
    Ok(words)
}

fn said(rt: &HostRuntime, status: u8, text: &str) -> Result<Answer, NoMemory> {
    Ok(Answer::Said(status, Vec::from_slice(rt.alloc(), text.as_bytes())?))
}

// What the words come to.
fn answer_to(rt: &HostRuntime, words: &[String]) -> Result<Answer, NoMemory> {
    let Some(asked) = asked_in(words) else {
        return said(
            rt,
            1,
            "usage: sjjoin --run ID [--server HOST:PORT] [--user NAME] [--log | --now | --drop]\n",
        );
    };
    match TcpStream::connect(rt, asked.server) {
        Ok(stream) => {
            let _ = stream.set_nodelay(true);
            let _ = stream.set_read_timeout(Some(Duration::from_secs(PATIENCE)));
            let _ = stream.set_write_timeout(Some(Duration::from_secs(PATIENCE)));
            match work(rt, &asked, stream) {
                Ok(answer) => Ok(answer),
                Err(refusal) => refused(rt, refusal),
            }
        }
        Err(_) => said(rt, 20, "no server\n"),
    }
}

// Does what is asked over the stream.
fn work<T: Read + Write + OpenStream + Drop>(
    rt: &HostRuntime,
    asked: &Asked<'_>,
    stream: T,
) -> Result<Answer, JoinRefusal> {
    let Ok(reading) = stream.try_clone() else {
        return Err(JoinRefusal::Talk(TalkRefusal::Lost));
    };
    let mut conn = Conn::new(rt.alloc(), ReadSource::new(reading), WriteSink::new(stream))?;
    if let Ok(password) = env::var(rt, "REDISCLI_AUTH") {
        let user = asked.user.map(|user| user.as_bytes());
        sign_in(rt.alloc(), &mut conn, user, password.as_bytes())?;
    }
    let run = asked.run.as_bytes();
    match asked.task {
        Task::Drop => {
            let _ = drop_run(rt.alloc(), &mut conn, run)?;
            Ok(Answer::Said(0, Vec::new(rt.alloc())))
        }
        Task::Replay { log } => {
            let found = find(rt.alloc(), &mut conn, run)?;
            Ok(replay_of(found, log)?)
        }
        Task::Now => {
            let found = find(rt.alloc(), &mut conn, run)?;
            Ok(now_of(rt, found)?)
        }
    }
}

// The run, to be replayed. A text that isn't one of a file is, too: the replay says why.
fn replay_of(found: Found, log: bool) -> Result<Answer, NoMemory> {
    let mut source = found.text;
    match &found.run {
        Some((file, lines)) => put_source(&mut source, file, lines)?,
        None => source.extend_from_slice(b"\n%%log\n")?,
    }
    Ok(Answer::Replay { source, log })
}

// What the run did so far. Where its file or its log is refused, the replay says why.
fn now_of(rt: &HostRuntime, found: Found) -> Result<Answer, NoMemory>
    requires { IsFoundWithin found }
{
    let Found { text, run } = found;
    let Some((file, lines)) = run else {
        return replay_of(Found { text, run: None }, false);
    };
    let mut source = text;
    put_source(&mut source, &file, &lines)?;
    let Ok(accepted) = check(rt.alloc(), file) else {
        return Ok(Answer::Replay { source, log: false });
    };
    match now_in(rt.alloc(), &accepted, lines)? {
        Some(now) => Ok(Answer::Said(status_of(now.verdict), now.text)),
        None => Ok(Answer::Replay { source, log: false }),
    }
}

fn status_of(verdict: Option<Verdict>) -> u8 {
    match verdict {
        None | Some(Verdict::Done) => 0,
        Some(Verdict::Blocked) => 6,
        Some(Verdict::Long) => 7,
    }
}

// The status and the text of a refusal.
fn refused(rt: &HostRuntime, refusal: JoinRefusal) -> Result<Answer, NoMemory> {
    match refusal {
        JoinRefusal::NoMemory => Err(NoMemory),
        JoinRefusal::TooLarge => said(rt, 3, "too large\n"),
        JoinRefusal::NoRun => said(rt, 31, "no run\n"),
        JoinRefusal::NoLines { .. } | JoinRefusal::NoLog { .. } | JoinRefusal::Disorder { .. } => {
            let mut text = Vec::new(rt.alloc());
            put_fault(&mut text, refusal)?;
            Ok(Answer::Said(28, text))
        }
        JoinRefusal::Talk(talk) => match talk {
            TalkRefusal::Refused(Refusal::Away) => said(rt, 20, "no server\n"),
            TalkRefusal::Refused(Refusal::Password) => said(rt, 21, "password refused\n"),
            TalkRefusal::Refused(_) => said(rt, 24, "server error\n"),
            TalkRefusal::NoReply => said(rt, 25, "no reply\n"),
            TalkRefusal::Gap => said(rt, 28, "log fault: a number is missing or comes again\n"),
            TalkRefusal::Lost => said(rt, 30, "connection lost\n"),
            TalkRefusal::NoMemory => Err(NoMemory),
        },
    }
}

// The fault of a party's log.
fn put_fault(text: &mut Vec<u8>, refusal: JoinRefusal) -> Result<(), NoMemory> {
    match refusal {
        JoinRefusal::NoLines { party } => {
            put(text, b"log fault: party ")?;
            put_number(text, u64::from(party))?;
            put(text, b" has an entry without lines\n")
        }
        JoinRefusal::NoLog { party, rule, line } => {
            put(text, b"log fault: party ")?;
            put_number(text, u64::from(party))?;
            put(text, b" L")?;
            put_number(text, u64::from(rule))?;
            put(text, b" at ")?;
            put_number(text, u64::from(line))?;
            put(text, b"\n")
        }
        JoinRefusal::Disorder { party } => {
            put(text, b"log fault: party ")?;
            put_number(text, u64::from(party))?;
            put(text, b" has lines out of order or of another\n")
        }
        _ => Ok(()),
    }
}
