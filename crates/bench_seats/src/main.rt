//! `bench_seats`: messages between two seats over rings, and between two threads over bare rings.
//! `pingpong N` and `stream N` are by seats, `bare pingpong N` and `bare stream N` by hand. It
//! prints how many messages there were, the nanoseconds of the whole, and those of the taker.
//! `counts N` prints alone how many messages there were, of a stream by seats and of a ping-pong.
//! `bench/seat` calls it.
#![tactic(auto)]

mod bare;
mod clocks;
mod file;
mod player;
mod seats;
mod timed;

use crate::bare::by_hand;
use crate::file::Kind;
use crate::seats::by_seats;
use crate::timed::Timed;
use std::env;
use std::io::Write;
use std::process::ExitCode;
use std::rt::Env;

/// What the words ask for.
#[derive(Clone, Copy, PartialEq, Eq)]
enum Task {
    Seats(Kind),
    Bare(Kind),
    Counts,
}

fn kind_of(word: &str) -> Option<Kind> {
    match word {
        "stream" => Some(Kind::Stream),
        "pingpong" => Some(Kind::PingPong),
        _ => None,
    }
}

/// The task, and the number of messages.
fn task_of<E: Env + AllocGlobal>(caller: &E) -> Option<(Task, u32)> {
    let Ok(args) = env::args(caller) else {
        return None;
    };
    let mut words = args.skip(1);
    let first = words.next()?;
    let task = if first.as_str() == "bare" {
        Task::Bare(kind_of(words.next()?.as_str())?)
    } else if first.as_str() == "counts" {
        Task::Counts
    } else {
        Task::Seats(kind_of(first.as_str())?)
    };
    let messages = words.next()?.parse::<u32>().ok()?;
    Some((task, messages))
}

fn main(rt: HostRuntime) -> ExitCode {
    let Some((task, messages)) = task_of(&rt) else {
        return ExitCode::FAILURE;
    };
    let alloc = rt.alloc();
    let timed = match task {
        Task::Seats(kind) => by_seats(&rt, alloc, kind, messages),
        Task::Bare(kind) => by_hand(&rt, alloc, kind, messages),
        Task::Counts => by_seats(&rt, alloc, Kind::Stream, messages),
    };
    let Some(
        Timed {
            messages: done,
            whole,
            played,
        },
    ) = timed
    else {
        return ExitCode::FAILURE;
    };
    let printed = if task == Task::Counts {
        let Some(other) = by_seats(&rt, alloc, Kind::PingPong, messages) else {
            return ExitCode::FAILURE;
        };
        let back = other.messages;
        println!(rt; "{done} {back}")
    } else {
        println!(rt; "{done} {whole} {played}")
    };
    match printed {
        Ok(()) => ExitCode::SUCCESS,
        Err(_) => ExitCode::FAILURE,
    }
}
