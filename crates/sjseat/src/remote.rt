//! A party by lines over the streams of a server: the file, the connection, the end.
ghost use Rattle.std.specs.Prelude.{◌<◌, length};
ghost use Rattle.sj_check.specs.Held.{file_in};
ghost use Rattle.sj_lang.specs.FileView.{file_of};

use crate::statuses::{fault_of, status_by, status_of};
use crate::words::Remote;
use sj_base::{NoMemory, ReadSource, Sink, Source, WriteSink};
use sj_check::Accepted;
use sj_remote::Conn;
use sj_remote_lines::{Left, Played, play_lines};
use sj_remote_run::{Outcome, Play, PlayRefusal};
use sj_remote_seat::SeatPlayRefusal;
use sj_seat_lines::LineReader;
use sj_seat_local::{
    Before, NO_MEMORY, accepted, checked, file_before, party_named, said, said_no_party,
};
use std::env::VarError;
use std::net::{OpenStream, TcpStream};
use std::thread::Threads;
use std::time::Duration;
use std::{env, io};

/// The variable that has the password.
const PASSWORD: &str = "REDISCLI_AUTH";

/// The password, if the variable has one.
fn password(rt: &HostRuntime) -> Result<Option<String>, PlayRefusal> {
    match env::var(rt, PASSWORD) {
        Ok(password) => Ok(Some(password)),
        Err(VarError::OutOfMemory) => Err(PlayRefusal::NoMemory),
        Err(VarError::NotPresent) => Ok(None),
        Err(_) => Err(PlayRefusal::Password),
    }
}

/// A connection, on which a read fails where nothing comes for some seconds more than the server is
/// to wait.
fn connect(rt: &HostRuntime, remote: &Remote) -> io::Result<(TcpStream, TcpStream)> {
    let stream = TcpStream::connect(rt, remote.server.as_str())?;
    stream.set_nodelay(true)?;
    stream.set_read_timeout(Some(Duration::from_secs(remote.wait.saturating_add(10))))?;
    let other = stream.try_clone()?;
    Ok((stream, other))
}

/// The connection to the server, and the password there.
fn meet(
    rt: &HostRuntime,
    remote: &Remote,
) -> Result<
    (
        Conn<ReadSource<TcpStream>, WriteSink<TcpStream>>,
        Option<String>,
    ),
    PlayRefusal,
> {
    let password = password(rt)?;
    let Ok((stream, other)) = connect(rt, remote) else {
        return Err(PlayRefusal::NoServer);
    };
    let conn = Conn::new(rt.alloc(), ReadSource::new(stream), WriteSink::new(other))?;
    Ok((conn, password))
}

/// Writes why the party isn't played any further, and answers the status.
fn refused<K: Sink>(rt: &HostRuntime, refusal: SeatPlayRefusal, out: &mut K) -> u8 {
    match format!(in rt.alloc(); "{refusal}\n") {
        Ok(text) => said(out, text.as_bytes(), status_by(refusal)),
        Err(_) => NO_MEMORY,
    }
}

/// Writes how the party stands, or why it isn't played any further, and answers the status.
fn finish<K: Sink + Drop>(rt: &HostRuntime, played: Played<K>) -> u8 {
    let Left { over, sink } = played.left;
    let Some(sink) = sink else {
        return NO_MEMORY;
    };
    let mut out = sink;
    if let Some(status) = fault_of(over) {
        return status;
    }
    match played.outcome {
        Ok(outcome) => {
            let last: &[u8] = match outcome {
                Outcome::Ended => b"ended\n",
                Outcome::Waits => b"waits\n",
                Outcome::Limit => b"limit\n",
            };
            said(&mut out, last, status_of(outcome))
        }
        Err(refusal) => refused(rt, refusal, &mut out),
    }
}

/// Plays the party of the accepted file.
fn play<S: Source + Drop, K: Sink + Drop>(
    rt: &HostRuntime,
    accepted: &Accepted,
    remote: &Remote,
    party: u16,
    patience: u32,
    lines: LineReader<S>,
    out: K,
) -> u8
    requires { party < length (file_of (file_in accepted.now)).parties }
{
    let mut out = out;
    let (mut conn, password) = match meet(rt, remote) {
        Ok(met) => met,
        Err(refusal) => return refused(rt, SeatPlayRefusal::Party(refusal), &mut out),
    };
    let how = Play {
        run: remote.run.as_bytes(),
        party,
        user: remote.user.as_ref().map(|u| u.as_bytes()),
        password: password.as_ref().map(|p| p.as_bytes()),
        wait: remote.wait.saturating_mul(1000),
    };
    let played = play_lines(rt.alloc(), &mut conn, accepted, &how, patience, lines, out);
    finish(rt, played)
}

/// Plays the party of that name, or of that number, by the lines after the file and a line `%%talk`.
/// Answers the status. The threads are for what `sj check` says of a file that isn't accepted.
pub(crate) fn seat_remote<R: Threads + Sync, S: Source + Drop, K: Sink + Drop>(
    rt: &HostRuntime,
    threads: &R,
    word: &[u8],
    patience: u32,
    remote: &Remote,
    src: S,
    out: K,
) -> u8 {
    let alloc = rt.alloc();
    let mut out = out;
    let mut lines = LineReader::new(alloc, src);
    let bytes = match file_before(alloc, &mut lines) {
        Ok(Before::File(bytes)) => bytes,
        Ok(Before::ReadFault) => return said(&mut out, b"read fault\n", 2),
        Ok(Before::TooLarge) => return said(&mut out, b"too large\n", 3),
        Ok(Before::NoTalk) => return said(&mut out, b"talk L1 at 0\n", 12),
        Err(NoMemory) => return NO_MEMORY,
    };
    let accepted = match accepted(alloc, &bytes) {
        Ok(Some(accepted)) => accepted,
        Ok(None) => return checked(threads, alloc, bytes, &mut out),
        Err(NoMemory) => return NO_MEMORY,
    };
    let Some(party) = party_named(accepted.file(), word) else {
        return said_no_party(alloc, word, &mut out);
    };
    play(rt, &accepted, remote, party, patience, lines, out)
}
