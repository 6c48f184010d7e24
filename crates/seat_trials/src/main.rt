//! `seat_trials`: runs of a file on standard input, in which codes play parties.
//! `file rings COUNT SEED` has codes that go by the file's bodies, and `random rings COUNT SEED` random
//! ones; `sockets` in the place of `rings` has them over sockets. It prints how many runs were tried
//! and how many were bad, and of the first bad one its number and why. With a last word `counts` it
//! prints more. `bench/trials` calls it.
#![tactic(auto)]

mod again;
mod deed;
mod dice;
mod ends;
mod file;
mod held;
mod history;
mod picks;
mod random;
mod repeated;
mod rules;
mod runs;
mod said;
mod same;
mod sizes;
mod speech;
mod spoken;
mod threads;
mod wanted;
mod why;
mod wild;
mod written;

use crate::file::accepted_in;
use crate::random::random_runs;
use crate::same::each_seat;
use crate::why::Tally;
use sj_base::{ReadSource, read_all};
use sj_lane::{Links, RingLinks};
use sj_proto::Tokens;
use sj_socket::SocketLinks;
use std::alloc::Global;
use std::env;
use std::io::{self, Print, Write};
use std::process::ExitCode;
use std::rt::Env;
use std::thread::Threads;

/// What the words ask for.
#[derive(Clone, Copy)]
struct Task {
    random: bool,
    sockets: bool,
    count: u32,
    seed: u64,
    counts: bool,
}

// One of two words: whether it is the second.
fn is_second(word: &str, first: &str, second: &str) -> Option<bool> {
    if word == first {
        Some(false)
    } else if word == second {
        Some(true)
    } else {
        None
    }
}

/// The task.
fn task_of<E: Env + AllocGlobal>(caller: &E) -> Option<Task> {
    let Ok(args) = env::args(caller) else {
        return None;
    };
    let mut words = args.skip(1);
    let random = is_second(words.next()?.as_str(), "file", "random")?;
    let sockets = is_second(words.next()?.as_str(), "rings", "sockets")?;
    let count = words.next()?.parse::<u32>().ok()?;
    let seed = words.next()?.parse::<u64>().ok()?;
    let counts = words.next().is_some();
    Some(Task {
        random,
        sockets,
        count,
        seed,
        counts,
    })
}

/// The runs of the file that the text is; none where it is no accepted file, or memory is short.
fn tried<R: Threads + Sync, L: Links>(
    rt: &R,
    alloc: Global,
    text: &[u8],
    task: Task,
    links: &mut L,
) -> Option<Tally> {
    let accepted = accepted_in(alloc, text)?;
    let mut tally = Tally::new();
    if task.random {
        random_runs(
            rt, alloc, text, &accepted, task.count, task.seed, links, &mut tally,
        );
        return Some(tally);
    }
    for _ in 0..task.count {
        if each_seat(rt, alloc, &accepted, links, &mut tally).is_err() {
            return None;
        }
    }
    Some(tally)
}

/// Prints what was tried.
fn print_tally(rt: &impl Print, tally: &Tally, counts: bool) -> io::Result<()> {
    let Tally {
        tried,
        bad,
        first,
        done,
        refused,
        plain,
    } = *tally;
    print!(rt; "{tried} tried, {bad} bad")?;
    if let Some((number, why)) = first {
        let word = why.word();
        print!(rt; ", first {number}: {word}")?;
    }
    if counts {
        print!(rt; ", {done} done, {refused} refused, {plain} plain")?;
    }
    println!(rt; "")
}

fn main(rt: HostRuntime) -> ExitCode {
    let Some(task) = task_of(&rt) else {
        return ExitCode::FAILURE;
    };
    let mut src = ReadSource::new(rt.stdin());
    let Ok(text) = read_all(rt.alloc(), &mut src, Tokens::MOST_BYTES) else {
        return ExitCode::FAILURE;
    };
    let tally = if task.sockets {
        tried(&rt, rt.alloc(), &text, task, &mut SocketLinks::new(&rt))
    } else {
        tried(&rt, rt.alloc(), &text, task, &mut RingLinks::new())
    };
    let Some(tally) = tally else {
        return ExitCode::FAILURE;
    };
    match print_tally(&rt, &tally, task.counts) {
        Ok(()) if tally.bad == 0 => ExitCode::SUCCESS,
        _ => ExitCode::FAILURE,
    }
}
