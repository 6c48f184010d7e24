//! A party that code plays, over a connection.
#![tactic(auto, using(crate::proofs::StepsLemmas::no_step, crate::proofs::StepsLemmas::one_step, crate::proofs::StepsLemmas::steps_then))]

ghost use Rattle.std.specs.Prelude.{◌≡◌, ◌<◌, [], IfErr, IfOk, get_or, length};
ghost use Rattle.sj_check.specs.Held.{file_in};
ghost use Rattle.sj_lang.specs.FileView.{file_of};
ghost use Rattle.sj_node.specs.Node.{log_of};
ghost use Rattle.sj_node.specs.Reading.{parties_of, party_of};
ghost use Rattle.sj_remote.specs.Conn.{sink_of};
ghost use Rattle.sj_remote.specs.Streams.{keys_of, seen_of};
ghost use Rattle.sj_remote_run.specs.Sent.{text_sent};
ghost use Rattle.sj_remote_seat.specs.Played.{HasGone, IsPlayed, IsRefused};
ghost use Rattle.sj_remote_seat.specs.Steps.{Steps};
ghost use Rattle.sj_remote_seat.specs.Turns.{IsClear};
ghost use Rattle.sj_seat.specs.Views.{node_of};
ghost use Rattle.sj_streams.specs.Words.{words_at};

use crate::SeatPlayRefusal;
use crate::asking::Asking;
use crate::batch::play_batch;
use crate::catching::catch_up;
use crate::code::Code;
use crate::handing::{hand_in, hand_in_last};
use crate::seat::Seat;
use crate::start::take_seat;
use sj_base::{Sink, Source};
use sj_check::Accepted;
use sj_lang::File;
use sj_remote::{Conn, Streams};
use sj_remote_run::{Outcome, Play, PlayRefusal, new_lanes, read_all, share, sign_in};
use sj_work::NoGate;
use std::alloc::Global;

/// So many milliseconds to wait for what comes: hardly any where the code has yet to be told something.
fn wait_for(brief: bool, most: u64) -> u64 {
    if brief { 1 } else { most.max(1) }
}

/// Batches until there is a cause to stop.
fn go_on<S: Source, K: Sink, C: Code>(
    alloc: Global,
    conn: &mut Conn<S, K>,
    file: &File,
    how: &Play,
    seat: Seat<'_>,
    streams: &mut Streams,
    asking: &mut Asking,
    code: &mut C,
) -> Result<Outcome, PlayRefusal>
    requires empty { log_of (node_of seat) ≡ [] }
    requires clear { IsClear seat }
    requires parties { length (file_of file.now).parties ≡ parties_of (node_of seat) }
    ensures gone { IfOk result (λ o. HasGone (text_sent (file_of file.now) how.now.run.now
        (words_at (keys_of streams.old)) (party_of (node_of seat.entry))) (file_of file.now)
        (get_or (seen_of streams.old) (party_of (node_of seat.entry)) 0) seat.entry o
        (K.written (sink_of conn.old)) (K.written (sink_of conn.new))) }
    ensures steps { Steps C.Code.step code.old code.new }
{
    let mut going = seat;
    for _ in 0..u64::MAX {
        let (next, outcome) = play_batch(alloc, going, asking, code)?;
        if outcome == Outcome::Ended {
            hand_in_last(alloc, conn, file, next, streams)?;
            return Ok(outcome);
        }
        let on = outcome == Outcome::Waits && !asking.is_over() && code.is_live();
        let wait = wait_for(on && asking.owes(), how.wait);
        let (seat, came) = hand_in(alloc, conn, file, next, streams, wait)?;
        if !came && !on {
            return Ok(outcome);
        }
        going = seat;
    }
    // No stream has so many entries.
    Err(PlayRefusal::TooLong)
}

/// Plays a party over a connection by what its code asks for, until there is a cause to stop. It
/// begins with all that stands at the server, and so with code that wasn't asked yet. That code
/// first gets the answers that the party got there. Live code is asked as long as it isn't over.
pub fn play_seat<S: Source + Drop, K: Sink + Drop, C: Code>(
    alloc: Global,
    conn: &mut Conn<S, K>,
    accepted: &Accepted,
    how: &Play,
    code: &mut C,
) -> Result<Outcome, SeatPlayRefusal>
    requires { how.now.party < length (file_of (file_in accepted.now)).parties }
    ensures ok { IfOk result (λ o. IsPlayed (file_of (file_in accepted.now)) how.now.run.now
        how.now.party o (K.written (sink_of conn.old)) (K.written (sink_of conn.new))) }
    ensures refused { IfErr result (IsRefused (file_of (file_in accepted.now)) how.now.run.now
        how.now.party (K.written (sink_of conn.old)) (K.written (sink_of conn.new))) }
    ensures steps { Steps C.Code.step code.old code.new }
{
    sign_in(alloc, conn, how.user, how.password)?;
    share(alloc, conn, accepted.file(), how.run)?;
    let parties = accepted.file().parties.len() as u16;
    let mut streams = Streams::new(alloc, how.run, parties)?;
    let mut lanes = new_lanes(alloc, parties)?;
    let mut own = Vec::new(alloc);
    read_all(
        alloc,
        conn,
        &mut streams,
        &mut lanes.ins,
        how.party,
        &mut own,
    )?;
    let gate = NoGate;
    let mut asking = Asking::new(alloc);
    let first = take_seat(alloc, accepted, how.party, lanes, &gate)?;
    let seat = catch_up(alloc, accepted, first, &own, &mut asking, code)?;
    let outcome = go_on(
        alloc,
        conn,
        accepted.file(),
        how,
        seat,
        &mut streams,
        &mut asking,
        code,
    )?;
    Ok(outcome)
}
