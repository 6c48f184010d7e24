//! Connections to the server, one after another.
ghost use Rattle.std.specs.Prelude.{◌<◌, length};
ghost use Rattle.sj_check.specs.Held.{file_in};
ghost use Rattle.sj_lang.specs.FileView.{file_of};

use crate::statuses::Why;
use crate::words::Words;
use sj_base::{ReadSource, WriteSink};
use sj_check::Accepted;
use sj_remote::Conn;
use sj_remote_run::{Outcome, Play, PlayRefusal, play_party};
use std::env::VarError;
use std::net::{OpenStream, TcpStream};
use std::time::Duration;
use std::{env, io, thread};

/// The variable that has the password.
const PASSWORD: &str = "REDISCLI_AUTH";

/// The password, if the variable has one.
fn password(rt: &HostRuntime) -> Result<Option<String>, PlayRefusal> {
    match env::var(rt, PASSWORD) {
        Ok(password) => Ok(Some(password)),
        Err(VarError::OutOfMemory) => Err(PlayRefusal::NoMemory),
        Err(VarError::NotPresent) => Ok(None),
        Err(_) => Err(PlayRefusal::Password),
    }
}

/// A connection, on which a read fails where nothing comes for some seconds more than the server is
/// to wait.
fn connect(rt: &HostRuntime, words: &Words) -> io::Result<(TcpStream, TcpStream)> {
    let stream = TcpStream::connect(rt, words.server.as_str())?;
    stream.set_nodelay(true)?;
    stream.set_read_timeout(Some(Duration::from_secs(words.wait.saturating_add(10))))?;
    let other = stream.try_clone()?;
    Ok((stream, other))
}

/// Plays the party over one connection.
fn play_once(
    rt: &HostRuntime,
    accepted: &Accepted,
    words: &Words,
    party: u16,
) -> Result<Outcome, PlayRefusal>
    requires { party < length (file_of (file_in accepted.now)).parties }
{
    let Ok((stream, other)) = connect(rt, words) else {
        return Err(PlayRefusal::NoServer);
    };
    let password = password(rt)?;
    let mut conn = Conn::new(rt.alloc(), ReadSource::new(stream), WriteSink::new(other))?;
    let how = Play {
        run: words.run.as_bytes(),
        party,
        user: words.user.as_ref().map(|u| u.as_bytes()),
        password: password.as_ref().map(|p| p.as_bytes()),
        wait: words.wait.saturating_mul(1000),
    };
    play_party(rt.alloc(), &mut conn, accepted, &how)
}

/// Plays the party, and tries again where there is no server or the connection is lost.
pub(crate) fn play_on(
    rt: &HostRuntime,
    accepted: &Accepted,
    words: &Words,
    party: u16,
) -> Result<Outcome, Why>
    requires { party < length (file_of (file_in accepted.now)).parties }
{
    for again in 0..words.tries {
        match play_once(rt, accepted, words, party) {
            Ok(outcome) => return Ok(outcome),
            Err(PlayRefusal::Lost | PlayRefusal::NoServer) => {}
            Err(refusal) => return Err(Why::Refused(refusal)),
        }
        thread::sleep(rt, Duration::from_millis(words.pause));
        let number = again + 1;
        let _ = eprintln!(rt; "{}: again, {number}", words.name);
    }
    match play_once(rt, accepted, words, party) {
        Ok(outcome) => Ok(outcome),
        Err(refusal) => Err(Why::Refused(refusal)),
    }
}
