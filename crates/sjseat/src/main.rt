//! `sjseat`: a party of a file played by lines. `sjseat PARTY --local` plays it beside the others,
//! which run on threads in the same process, `sjseat PARTY --run ID` over the streams of a server.
#![tactic(auto)]

mod line;
mod remote;
mod statuses;
mod words;

use remote::seat_remote;
use sj_base::{NoMemory, ReadSource, WriteSink};
use sj_seat_local::{NO_MEMORY, said, seat_local};
use std::env;
use std::process::ExitCode;
use words::words_in;

#[cfg(test)]
mod tests;

const USAGE: &[u8] =
    b"usage: sjseat PARTY (--local | --run ID [--server HOST:PORT] [--wait SECONDS]) [--patience N]\n";

/// The words after the program's name.
fn own_words(rt: &HostRuntime) -> Result<Vec<String>, NoMemory> {
    let mut owned = Vec::new(rt.alloc());
    let Ok(args) = env::args(rt) else {
        return Ok(owned);
    };
    for word in args.skip(1) {
        owned.push(word)?;
    }
    Ok(owned)
}

fn main(rt: HostRuntime) -> ExitCode {
    let Ok(owned) = own_words(&rt) else {
        return ExitCode::from(NO_MEMORY);
    };
    let mut out = WriteSink::new(rt.stdout());
    match words_in(rt.alloc(), &owned) {
        Ok(Some(words)) => {
            let src = ReadSource::new(rt.stdin());
            let party = words.party.as_bytes();
            let patience = words.patience;
            let status = match &words.remote {
                Some(remote) => seat_remote(&rt, &rt, party, patience, remote, src, out),
                None => seat_local(&rt, rt.alloc(), party, patience, src, out).status,
            };
            ExitCode::from(status)
        }
        Ok(None) => ExitCode::from(said(&mut out, USAGE, 1)),
        Err(NoMemory) => ExitCode::from(NO_MEMORY),
    }
}
