//! Transcripts of small files of which a party is played by code. The code calls what the party of
//! the file did, as the lines report it.
ghost use Rattle.std.specs.Prelude.{IfOk};
ghost use Rattle.sj_check.specs.Held.{file_in};
ghost use Rattle.sj_lang.specs.FileView.{file_of};
ghost use Rattle.sj_seat_told.specs.Quiet.{IsQuietOf};

use sj_check::{Accepted, check};
use sj_core::World;
use sj_log::parted;
use sj_party::parse_file;
use sj_plain::Plain;
use sj_print::print_transcript;
use sj_proto::Tokens;
use sj_seat::seat_table;
use sj_seat_replay::{SeatReplayRefusal, put_history, replay_seated};
use sj_seat_told::put_transcript;
use sj_seats::SeatedWorld;
use std::alloc::Global;
use std::test::Fail;

/// The most bytes of a log.
const MOST_BYTES: usize = 16_777_216;

// A buyer, who asks for a number of things, and a seller, who answers.
const SHOP: &[u8] = b"protocol buys { begin.!<int>.?{YES: ?(String), NO:} }
protocol sells { begin.?(int).!{YES: !<String>, NO:} }
party buyer {
  send x 4;
  inbranch x { YES: { recv x t String; close x; } NO: { close x; } }
}
party seller { recv y n int; outbranch y YES; send y \"here\"; close y; }
connect buyer x buys to seller y sells;
";

// b hands its end of the first session on to c.
const HANDED: &[u8] = b"protocol p { begin.!<int> }
protocol q { begin.?(int) }
protocol g { begin.!<?(int)> }
protocol h { begin.?(?(int)) }
party a { send x 5; close x; }
party b { delegate z y; close z; }
party c { recv u s session q; close u; recv s n int; close s; }
connect a x p to b y q;
connect b z g to c u h;
";

// a opens a session with b.
const OPENED: &[u8] = b"protocol p { begin.!<int> }
protocol q { begin.?(int) }
party a { request x p to b; send x 5; close x; }
party b { accept y q from a; recv y n int; close y; }
party c { }
";

fn accepted(alloc: Global, text: &[u8]) -> Result<Accepted, Fail> {
    if text.len() > Tokens::MOST_BYTES {
        return Err(Fail::from("too long"));
    }
    let file = parse_file(alloc, text)?;
    match check(alloc, file) {
        Ok(accepted) => Ok(accepted),
        Err(_) => Err(Fail::from("refused")),
    }
}

/// Of each party whether it is that one.
fn seats_for(alloc: Global, accepted: &Accepted, party: usize) -> Result<Vec<bool>, Fail> {
    let mut seats = Vec::new(alloc);
    for at in 0..accepted.file().parties.len() {
        seats.push(at == party)?;
    }
    Ok(seats)
}

/// The world of the file where that party is played by code. It calls what the party of the file
/// did, as far as so many lines report it, and then nothing more.
fn seated_world(
    alloc: Global,
    accepted: &Accepted,
    party: usize,
    most: usize,
) -> Result<SeatedWorld, Fail>
    ensures { IfOk result (λ w. IsQuietOf (file_of (file_in accepted.now)) w) }
{
    let mut own = World::start(alloc, accepted)?;
    own.drain()?;
    let mut lines = Vec::new(alloc);
    for line in own.history().iter().take(most) {
        lines.push(*line)?;
    }
    let seats = seats_for(alloc, accepted, party)?;
    if seats.len() != accepted.file().parties.len() {
        return Err(Fail::from("a seat is missing"));
    }
    let Some(table) = seat_table(alloc, accepted)? else {
        return Err(Fail::from("no table"));
    };
    let opened = Vec::new(alloc);
    let Ok(mut world) = SeatedWorld::replayed(alloc, accepted, &table, &seats, opened, lines) else {
        return Err(Fail::from("a misfit"));
    };
    world.drain()?;
    Ok(world)
}

/// The transcript of that world.
fn seated(alloc: Global, accepted: &Accepted, party: usize, most: usize) -> Result<Vec<u8>, Fail> {
    let world = seated_world(alloc, accepted, party, most)?;
    let mut text = Vec::new(alloc);
    put_transcript(alloc, &mut text, accepted.file(), &world)?;
    Ok(text)
}

/// The log does not lead on with these seats, or it leads to a world.
fn replayed(
    alloc: Global,
    accepted: &Accepted,
    party: usize,
    text: &[u8],
) -> Result<Result<SeatedWorld, SeatReplayRefusal>, Fail> {
    let seats = seats_for(alloc, accepted, party)?;
    if seats.len() != accepted.file().parties.len() {
        return Err(Fail::from("a seat is missing"));
    }
    let Some((_, version, log)) = parted(text) else {
        return Err(Fail::from("no log"));
    };
    if log.len() > MOST_BYTES {
        return Err(Fail::from("too long"));
    }
    let opened = Vec::new(alloc);
    Ok(replay_seated(alloc, accepted, &seats, opened, version, log))
}

#[test]
fn a_seat_that_does_as_the_file_has_its_transcript(rt: HostRuntime) -> Result<(), Fail> {
    let alloc = rt.alloc();
    for (file, party) in [(SHOP, 0), (SHOP, 1), (HANDED, 1), (HANDED, 2)] {
        let accepted = accepted(alloc, file)?;
        let mut plain = Plain::start(alloc, &accepted)?;
        plain.finish()?;
        let mut own = Vec::new(alloc);
        print_transcript(&mut own, accepted.file(), &plain)?;
        let text = seated(alloc, &accepted, party, usize::MAX)?;
        assert_eq!(rt; text.as_slice(), own.as_slice(), "party {party}");
    }
    Ok(())
}

#[test]
fn a_code_that_leaves_waits_at_its_open_end(rt: HostRuntime) -> Result<(), Fail> {
    let alloc = rt.alloc();
    let accepted = accepted(alloc, HANDED)?;
    let text = seated(alloc, &accepted, 1, 0)?;
    let left: &[u8] = b"session 0 a x b y
0.0 0 a - int 5
session 1 b z c u
party a ended 2
party b waits 0 0.1
party c waits 0 1.1
blocked
";
    assert_eq!(rt; text.as_slice(), left);
    Ok(())
}

#[test]
fn an_opened_session_is_told_by_its_ends(rt: HostRuntime) -> Result<(), Fail> {
    let alloc = rt.alloc();
    let accepted = accepted(alloc, OPENED)?;
    let text = seated(alloc, &accepted, 2, usize::MAX)?;
    let whole: &[u8] = b"session 64 a 64.0 b 64.1
64.0 0 a b int 5
party a ended 3
party b ended 3
party c ended 0
done
";
    assert_eq!(rt; text.as_slice(), whole);
    let text = seated(alloc, &accepted, 1, 0)?;
    let left: &[u8] = b"session 64 a 64.0 b -
64.0 0 a - int 5
party a ended 3
party b ended 0
party c ended 0
blocked
";
    assert_eq!(rt; text.as_slice(), left);
    Ok(())
}

#[test]
fn a_printed_history_is_done_again(rt: HostRuntime) -> Result<(), Fail> {
    let alloc = rt.alloc();
    for (file, party) in [(SHOP, 0), (HANDED, 1), (OPENED, 2)] {
        let accepted = accepted(alloc, file)?;
        let world = seated_world(alloc, &accepted, party, usize::MAX)?;
        let mut text = Vec::new(alloc);
        put_history(&mut text, accepted.file(), &world)?;
        let Ok(again) = replayed(alloc, &accepted, party, &text)? else {
            return Err(Fail::from("refused"));
        };
        assert_eq!(rt; again.history(), world.history(), "party {party}");
    }
    Ok(())
}

#[test]
fn a_line_that_is_not_due_is_refused(rt: HostRuntime) -> Result<(), Fail> {
    let alloc = rt.alloc();
    let accepted = accepted(alloc, HANDED)?;
    let text: &[u8] = b"%%log
1 a send 0.0 int 5
2 a send 0.0 int 5
";
    match replayed(alloc, &accepted, 1, text)? {
        Err(SeatReplayRefusal::Entry(misfit)) => assert_eq!(rt; misfit.number, 2),
        _ => return Err(Fail::from("taken")),
    }
    let unread: &[u8] = b"%%log
1 a gives 0.0 int 5
";
    match replayed(alloc, &accepted, 1, unread)? {
        Err(SeatReplayRefusal::Text { rule, line }) => assert_eq!(rt; (rule, line), (1, 1)),
        _ => return Err(Fail::from("read")),
    }
    Ok(())
}
