//! A party over a connection, played by lines.
ghost use Rattle.std.specs.Prelude.{◌<◌, IfErr, IfOk, length};
ghost use Rattle.sj_check.specs.Held.{file_in};
ghost use Rattle.sj_lang.specs.FileView.{file_of};
ghost use Rattle.sj_remote.specs.Conn.{sink_of};
ghost use Rattle.sj_remote_seat.specs.Played.{IsPlayed, IsRefused};

use crate::code::{ByLines, Left};
use sj_base::{Sink, Source};
use sj_check::Accepted;
use sj_remote::Conn;
use sj_remote_run::{Outcome, Play};
use sj_remote_seat::{SeatPlayRefusal, play_seat};
use sj_seat_lines::LineReader;
use std::alloc::Global;

/// How a party was played by lines: how it stands, or why it isn't played any further; and what its
/// lines leave.
#[derive(Drop)]
pub struct Played<K> {
    pub outcome: Result<Outcome, SeatPlayRefusal>,
    pub left: Left<K>,
}

/// Plays a party over a connection by lines. What stands in its stream already is told first, each act
/// by a line that begins with `again`, and then `go`. Each line is answered by one line, what it did
/// stands at the server then. A call that waits is asked for so often again, each time once something
/// came or nothing did for as long as the play says.
pub fn play_lines<T: Source + Drop, U: Sink + Drop, S: Source + Drop, K: Sink + Drop>(
    alloc: Global,
    conn: &mut Conn<T, U>,
    accepted: &Accepted,
    how: &Play,
    patience: u32,
    lines: LineReader<S>,
    out: K,
) -> Played<K>
    requires { how.now.party < length (file_of (file_in accepted.now)).parties }

    // What was sent, what was done again, and how the party stands: as of any code.
    ensures ok { IfOk result.outcome (λ o. IsPlayed (file_of (file_in accepted.now))
        how.now.run.now how.now.party o
        (U.written (sink_of conn.old)) (U.written (sink_of conn.new))) }
    ensures refused { IfErr result.outcome (IsRefused (file_of (file_in accepted.now))
        how.now.run.now how.now.party
        (U.written (sink_of conn.old)) (U.written (sink_of conn.new))) }
{
    let mut code = match ByLines::new(alloc, accepted, how.party, patience, lines, out) {
        Ok(code) => code,
        Err(e) => {
            return Played {
                outcome: Err(SeatPlayRefusal::from(e)),
                left: Left {
                    over: None,
                    sink: None,
                },
            };
        }
    };
    let outcome = play_seat(alloc, conn, accepted, how, &mut code);
    let left = code.into_left();
    Played { outcome, left }
}
