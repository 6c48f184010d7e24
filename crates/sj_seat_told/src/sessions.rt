//! The sessions that were opened in a world with seats, as its history reports them.
ghost use Rattle.std.specs.Prelude.{◌≡◌, ◌++◌, IfOk, OnOk, map};
ghost use Rattle.std.specs.List.{list_any};
ghost use Rattle.std.specs.Option.{option_to_list};
ghost use Rattle.sj_end.specs.Lines.{line_at, note_seen};
ghost use Rattle.sj_lang.specs.FileAt.{FileAt};
ghost use Rattle.sj_seat_laws.specs.SeatsWorld.{SeatsWorld};
ghost use Rattle.sj_seat_told.specs.Quiet.{IsEndOf, IsQuietOf};
ghost use Rattle.sj_seat_told_laws.specs.SeatsOpened.{accepted_if, is_accept_of, request_told, requests_told, sessions_told, told_session, unnamed};
ghost use Rattle.sj_seats.specs.Seated.{history_of, party_count};
ghost use Rattle.sj_semantics.specs.State.{opened_in};

use sj_base::NoMemory;
use sj_end::{Line, Note};
use sj_seats::SeatedWorld;
use sj_semantics::Opened;
use std::alloc::Global;

/// The sessions that were opened, in order of their numbers, as the history reports them. Their ends
/// have no names: `first` is 0, and so is `second` where the session was accepted.
pub fn opened(alloc: Global, world: &SeatedWorld) -> Result<Vec<Opened>, NoMemory>
    ensures seen { IfOk result (λ v.
        v.items ≡ sessions_told (history_of world.now) (party_count world.now) 0) }
    ensures end { IfOk result (λ v. (file : FileAt) (t : SeatsWorld) → IsQuietOf file world.now →
        IsEndOf file world.now t → v.items ≡ map unnamed (opened_in t.world)) }
{
    let mut all = Vec::new(alloc);
    for party in 0..world.parties() {
        add_opened(&mut all, world.history(), party as u16)?;
    }
    Ok(all)
}

// Those that the party opened, after the others.
fn add_opened(all: &mut Vec<Opened>, lines: &[Line], party: u16) -> Result<(), NoMemory>
    ensures { OnOk result (all.new.items ≡ all.old.items
        ++ map (told_session (map line_at lines.now) party)
        (requests_told party (map line_at lines.now))) }
{
    for line in lines {
        if let Some(session) = opened_by(lines, party, line) {
            all.push(session)?;
        }
    }
    Ok(())
}

// The session that the party opened by that line, if it did.
fn opened_by(lines: &[Line], party: u16, line: &Line) -> Option<Opened>
    ensures { option_to_list result ≡ map (told_session (map line_at lines.now) party)
        (request_told party line.now.party (note_seen line.now.entry.note)) }
{
    match line.entry.note {
        Note::Request { sess, to } if party == line.party => {
            Some(session_told(lines, party, sess, to))
        }
        _ => None,
    }
}

fn session_told(lines: &[Line], from: u16, sess: u32, to: u16) -> Opened
    ensures { result ≡ told_session (map line_at lines.now) from (record { sess = sess; to = to }) }
{
    let second = accepted_if(is_accepted(lines, sess));
    Opened {
        sess,
        from,
        first: 0,
        to,
        second,
    }
}

// A name where the session was accepted.
fn accepted_if(accepted: bool) -> Option<u16>
    ensures { result ≡ accepted_if accepted }
{
    if accepted { Some(0) } else { None }
}

// Whether one of the lines accepts the session of that number.
fn is_accepted(lines: &[Line], sess: u32) -> bool
    ensures { result ≡ list_any (λ l. is_accept_of sess (note_seen l.entry.note)) lines.now }
{
    lines.iter().any(|l| accepts(&l.entry.note, sess))
}

fn accepts(note: &Note, sess: u32) -> bool
    ensures { result ≡ is_accept_of sess (note_seen note.now) }
{
    match *note {
        Note::Accept { sess: accepted, .. } => accepted == sess,
        _ => false,
    }
}
