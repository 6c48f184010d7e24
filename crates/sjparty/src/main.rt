//! `sjparty`: plays one party of the file on standard input over the streams of a server. It says
//! on standard error what it does.
#![tactic(auto)]

mod input;
mod line;
mod statuses;
mod tries;
mod words;

use input::{accepted_in, party_named};
use sj_base::ReadSource;
use sj_remote_run::{Outcome, PlayRefusal};
use statuses::{Why, status_by, status_of};
use std::env;
use std::process::ExitCode;
use tries::play_on;
use words::{Words, words_in};

#[cfg(test)]
mod tests;

/// What the words of the call ask for.
fn words_of(rt: &HostRuntime) -> Result<Words, Why> {
    let Ok(args) = env::args(rt) else {
        return Err(Why::Usage);
    };
    let mut owned: Vec<String> = Vec::new(rt.alloc());
    for word in args.skip(1) {
        if owned.push(word).is_err() {
            return Err(Why::Refused(PlayRefusal::NoMemory));
        }
    }
    match words_in(rt.alloc(), &owned) {
        Ok(Some(words)) => Ok(words),
        Ok(None) => Err(Why::Usage),
        Err(_) => Err(Why::Refused(PlayRefusal::NoMemory)),
    }
}

/// Plays the party that the words name.
fn run(rt: &HostRuntime, words: &Words) -> Result<Outcome, Why> {
    let mut src = ReadSource::new(rt.stdin());
    let accepted = accepted_in(rt.alloc(), &mut src)?;
    let party = party_named(&accepted, words.name.as_bytes())?;
    let _ = eprintln!(rt;
        "{}: party {party} of run {} at {}",
        words.name, words.run, words.server
    );
    play_on(rt, &accepted, words, party)
}

fn main(rt: HostRuntime) -> ExitCode {
    let words = match words_of(&rt) {
        Ok(words) => words,
        Err(why) => {
            let _ = eprintln!(rt; "{why}");
            return ExitCode::from(status_by(why));
        }
    };
    match run(&rt, &words) {
        Ok(outcome) => {
            let _ = eprintln!(rt; "{}: {outcome}", words.name);
            ExitCode::from(status_of(outcome))
        }
        Err(why) => {
            let _ = eprintln!(rt; "{}: {why}", words.name);
            ExitCode::from(status_by(why))
        }
    }
}
