//! `remote_seat_uses`: plays the supplier of examples/agency.sj by code, over the streams of a
//! server. The file comes on standard input.

#![tactic(auto)]

ghost use Rattle.std.specs.Prelude.{◌<◌, length};
ghost use Rattle.sj_check.specs.Held.{file_in};
ghost use Rattle.sj_lang.specs.FileView.{file_of};

mod file;
mod supplier;
mod words;

use file::{accepted_in, party_named, text_named, word_named};
use sj_base::{ReadSource, WriteSink};
use sj_check::Accepted;
use sj_remote::Conn;
use sj_remote_run::{Outcome, Play, PlayRefusal};
use sj_remote_seat::{Plain, SeatPlayRefusal, play_seat};
use std::net::{OpenStream, TcpStream};
use std::process::ExitCode;
use std::time::Duration;
use std::{env, thread};
use supplier::Supplier;
use words::{Words, words_in};

/// So often it begins anew where the connection is lost.
const TRIES: u32 = 100;

fn main(rt: HostRuntime) -> ExitCode {
    let Some(words) = words_of(&rt) else {
        let _ = eprintln!(rt; "usage: remote_seat_uses RUN HOST:PORT WAIT PAUSE");
        return ExitCode::from(1);
    };
    let Some(accepted) = accepted_in(rt.alloc(), &mut ReadSource::new(rt.stdin())) else {
        let _ = eprintln!(rt; "supplier: no file");
        return ExitCode::from(4);
    };
    let Some(party) = party_named(&accepted, b"supplier") else {
        let _ = eprintln!(rt; "supplier: no party");
        return ExitCode::from(14);
    };
    let _ = eprintln!(rt;
        "supplier: party {party} of run {} at {}",
        words.run, words.server
    );
    match play_on(&rt, &accepted, &words, party) {
        Ok(outcome) => {
            let _ = eprintln!(rt; "supplier: {outcome}");
            ExitCode::from(if outcome == Outcome::Ended { 0 } else { 6 })
        }
        Err(refusal) => {
            let _ = eprintln!(rt; "supplier: {refusal}");
            ExitCode::from(20)
        }
    }
}

/// What the words of the call ask for.
fn words_of(rt: &HostRuntime) -> Option<Words> {
    let Ok(args) = env::args(rt) else {
        return None;
    };
    let mut owned: Vec<String> = Vec::new(rt.alloc());
    for word in args.skip(1) {
        if owned.push(word).is_err() {
            return None;
        }
    }
    words_in(owned)
}

/// Plays the party over one connection, by a code that wasn't asked yet.
fn play_once(
    rt: &HostRuntime,
    accepted: &Accepted,
    words: &Words,
    party: u16,
) -> Result<Outcome, SeatPlayRefusal>
    requires { party < length (file_of (file_in accepted.now)).parties }
{
    let Ok(stream) = TcpStream::connect(rt, words.server.as_str()) else {
        return Err(SeatPlayRefusal::Party(PlayRefusal::NoServer));
    };
    let _ = stream.set_nodelay(true);
    let _ = stream.set_read_timeout(Some(Duration::from_millis(words.wait.saturating_add(10_000))));
    let Ok(other) = stream.try_clone() else {
        return Err(SeatPlayRefusal::Party(PlayRefusal::Lost));
    };
    let mut conn = Conn::new(rt.alloc(), ReadSource::new(stream), WriteSink::new(other))?;
    let how = Play {
        run: words.run.as_bytes(),
        party,
        user: None,
        password: None,
        wait: words.wait,
    };
    let date = text_named(accepted, b"3 May");
    let accept = word_named(accepted, b"ACCEPT");
    let code = Supplier::new(rt, date, accept, words.pause);
    let mut code = Plain { code };
    play_seat(rt.alloc(), &mut conn, accepted, &how, &mut code)
}

/// Plays the party, and begins anew where there is no server or the connection is lost.
fn play_on(
    rt: &HostRuntime,
    accepted: &Accepted,
    words: &Words,
    party: u16,
) -> Result<Outcome, SeatPlayRefusal>
    requires { party < length (file_of (file_in accepted.now)).parties }
{
    for _ in 0..TRIES {
        match play_once(rt, accepted, words, party) {
            Err(SeatPlayRefusal::Party(PlayRefusal::Lost | PlayRefusal::NoServer)) => {}
            ends => return ends,
        }
        thread::sleep(rt, Duration::from_millis(200));
    }
    play_once(rt, accepted, words, party)
}
