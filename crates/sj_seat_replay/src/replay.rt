//! A log, done again with seats.
ghost use Rattle.std.specs.Prelude.{◌≡◌, ◌≤◌, ℕ, IfErr, IfOk, length, map, max};
ghost use Rattle.sj_base.specs.declared.EndId.{EndId};
ghost use Rattle.sj_check.specs.Held.{file_in};
ghost use Rattle.sj_end.specs.Lines.{line_at};
ghost use Rattle.sj_lang.specs.FileAt.{body_named};
ghost use Rattle.sj_lang.specs.FileView.{file_of};
ghost use Rattle.sj_lang.specs.Limits.{source_limit};
ghost use Rattle.sj_log.specs.LogText.{SpellsLog};
ghost use Rattle.sj_plain.specs.SharedFile.{without_words};
ghost use Rattle.sj_print.specs.Version.{IsVersion};
ghost use Rattle.sj_seat.specs.Places.{CarriesPlaces};
ghost use Rattle.sj_seat_replay.specs.Replays.{IsReplayRefused, IsTableRefused, IsTextRefused};
ghost use Rattle.sj_seat_told_laws.specs.SeatsHistory.{IsSeatsHistory};
ghost use Rattle.sj_seats.specs.Openings.{opened_by};
ghost use Rattle.sj_seats.specs.Seated.{callers_of, core_of, history_of, kept_file, opened_of, party_count, seat_in, seats_of};
ghost use Rattle.sj_table.specs.Spots.{start_in};

use crate::refusal::SeatReplayRefusal;
use sj_base::NoMemory;
use sj_check::Accepted;
use sj_end::Line;
use sj_log::read_log;
use sj_seat::{OpenedSession, seat_table};
use sj_seats::SeatedWorld;
use sj_table::Table;
use std::alloc::Global;

// The lines of the log.
fn lines_of(
    alloc: Global,
    accepted: &Accepted,
    version: u8,
    log: &[u8],
) -> Result<Vec<Line>, SeatReplayRefusal>
    requires version { IsVersion version }
    requires few { length log.now ≤ source_limit }
    ensures spells { IfOk result (λ v. SpellsLog version (file_of (file_in accepted.now)) log.now (map line_at v.items)) }
    ensures refused { IfErr result (IsTextRefused version (file_of (file_in accepted.now)) log.now) }
{
    match read_log(alloc, log, accepted.file(), version) {
        Ok(lines) => Ok(lines),
        Err(refusal) => Err(SeatReplayRefusal::from(refusal)),
    }
}

// The table of all nodes.
fn table_of(alloc: Global, accepted: &Accepted) -> Result<Table, SeatReplayRefusal>
    ensures starts { IfOk result (λ t. (p : ℕ) → start_in t p
        ≡ body_named (file_of (file_in accepted.now)).protocols p) }
    ensures carries { IfOk result (λ t. CarriesPlaces t) }
    ensures refused { IfErr result IsTableRefused }
{
    match seat_table(alloc, accepted) {
        Ok(Some(table)) => Ok(table),
        Ok(None) => Err(SeatReplayRefusal::LacksPlace),
        Err(NoMemory) => Err(SeatReplayRefusal::NoMemory),
    }
}

/// The world to which a log of that version leads from the file's start on, where of each party
/// `seats` has whether code played it. The log has the calls of the code, so no code is asked. Its
/// file says nothing of seats, and another choice of them is another replay. A line names no
/// protocol, so `opened` has for each party as which protocols its code opened its sessions. What it
/// lacks counts as protocol 0. Takes time linear in the log, but for the look-up of names and of
/// opened sessions.
pub fn replay_seated(
    alloc: Global,
    accepted: &Accepted,
    seats: &[bool],
    opened: Vec<Vec<OpenedSession>>,
    version: u8,
    log: &[u8],
) -> Result<SeatedWorld, SeatReplayRefusal>
    requires version { IsVersion version }
    requires few { length log.now ≤ source_limit }
    requires count { length seats.now ≡ length (file_of (file_in accepted.now)).parties }

    // The lines of the log lead to it, each the one that is due, with these seats.
    ensures kept { IfOk result (λ w. kept_file w ≡ without_words (file_of (file_in accepted.now))) }
    ensures spells { IfOk result (λ w. SpellsLog version (file_of (file_in accepted.now)) log.now (history_of w)) }
    ensures seats { IfOk result (λ w. (q : ℕ) → seats_of w q ≡ seat_in seats.now q) }
    ensures opened { IfOk result (λ w. (q : ℕ) (e : EndId) → opened_of w q e ≡ opened_by opened.items q e) }

    // What is true of every world.
    ensures run { IfOk result (λ w. IsSeatsHistory max (kept_file w) (callers_of w) (history_of w) (core_of w)) }
    ensures parties { IfOk result (λ w. party_count w ≡ length (kept_file w).parties) }

    // The first line that isn't in the grammar, or else the first that isn't the one that is due.
    ensures refused { IfErr result (IsReplayRefused version (file_of (file_in accepted.now)) (seat_in seats.now) (opened_by opened.items) log.now) }
{
    let lines = lines_of(alloc, accepted, version, log)?;
    let table = table_of(alloc, accepted)?;
    match SeatedWorld::replayed(alloc, accepted, &table, seats, opened, lines) {
        Ok(world) => Ok(world),
        Err(refusal) => Err(SeatReplayRefusal::from(refusal)),
    }
}
