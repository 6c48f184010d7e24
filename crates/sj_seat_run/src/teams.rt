//! All parties of a file, each on a thread of its own.
ghost use Rattle.std.specs.Prelude.{◌≡◌, ◌<◌, ◌≤◌, ℕ, Err, IfErr, IfOk, length, slice_index_or};
ghost use Rattle.sj_check.specs.Held.{file_in as held};
ghost use Rattle.sj_lane.specs.Told.{Rose};
ghost use Rattle.sj_lang.specs.FileAt.{body_named};
ghost use Rattle.sj_lang.specs.FileView.{file_of};
ghost use Rattle.sj_seat.specs.Places.{CarriesPlaces};
ghost use Rattle.sj_seat_run.specs.Logged.{AllRanSo};
ghost use Rattle.sj_seat_run.specs.Refusals.{IsEarly};
ghost use Rattle.sj_seat_run.specs.Runners.{HasTakenPart};
ghost use Rattle.sj_seat_run.specs.Seats.{HasSameSeats, seats_by};
ghost use Rattle.sj_seats.specs.Openings.{opened_by};
ghost use Rattle.sj_table.specs.Spots.{start_in};

use crate::hires::{lanes_for, take_seats};
use crate::parts::take_part;
use crate::play::Play;
use crate::refusal::SeatedRefusal;
use crate::remains::{Parties, stand_up};
use crate::runners::Runner;
use crate::threads::table_crosses;
use crate::turnout::Turnout;
use sj_check::Accepted;
use sj_lane::{InLane, Links, OutLane};
use sj_node::node_crosses;
use sj_table::Table;
use sj_work::Gate;
use std::alloc::Global;
use std::thread::{self, Threads};

/// How many of the parties code plays.
fn count_codes<O, I, G, C>(runners: &[Runner<'_, O, I, G, C>]) -> u32 {
    let mut codes: u32 = 0;
    for runner in runners {
        if runner.is_coded() {
            codes = codes.saturating_add(1);
        }
    }
    codes
}

/// All take part, each on a thread of its own where one can be had.
fn set_off<R: Threads + Sync, O: OutLane, I: InLane, G: Gate, C: Play + Send>(
    rt: &R,
    runners: &mut [Runner<'_, O, I, G, C>],
    looks: u32,
    gate: &G,
)
    ensures length { length runners.new ≡ length runners.old }
    ensures each { (i : ℕ) (d : _) → i < length runners.old →
        HasTakenPart O.OutLane I.InLane looks (slice_index_or runners.old i d)
        (slice_index_or runners.new i d) }
{
    node_crosses();
    table_crosses();
    let threads = runners.len().max(1);
    let parties = u32::try_from(runners.len()).unwrap_or(u32::MAX);
    let turnout = Turnout::new(parties, count_codes(runners));
    thread::for_each_mut(
        rt,
        runners,
        threads,
        &|_, runner| { take_part(runner, &turnout, looks, gate) },
    );
}

/// The parties of the file at the end of the run.
pub(crate) fn run_all<R: Threads + Sync, L: Links, G: Gate, C: Play + Send + Drop>(
    rt: &R,
    alloc: Global,
    accepted: &Accepted,
    table: &Table,
    codes: Vec<Option<C>>,
    texts: usize,
    looks: u32,
    links: &mut L,
    gate: &G,
) -> Result<Parties<L::Out, L::In, C>, SeatedRefusal>
    requires starts { (p : ℕ) → start_in table.now p
        ≡ body_named (file_of (held accepted.now)).protocols p }
    requires carries { CarriesPlaces table.now }
    ensures ran { IfOk result (λ r. AllRanSo L.Out.OutLane L.In.InLane L.joined
        (file_of (held accepted.now)) looks (L.tells links.old) (seats_by codes.items)
        r.workers.items (opened_by r.opened.items)) }
    ensures codes { IfOk result (λ r. HasSameSeats (length (file_of (held accepted.now)).parties)
        codes.items r.codes.items) }
    ensures few { IfOk result (λ r. length r.workers.items ≤ 16) }
    ensures link_fault { result ≡ Err SeatedRefusal.LinkFault → Rose (L.faults links.old) (L.faults links.new) }
    ensures early { IfErr result IsEarly }
    ensures tells { L.tells links.new ≡ L.tells links.old }
    ensures faults { L.faults links.old ≤ L.faults links.new }
{
    let parties = accepted.file().parties.len() as u16;
    let lanes = lanes_for(alloc, parties, links)?;
    let mut runners = take_seats(alloc, accepted, table, codes, texts, lanes, looks, gate)?;
    set_off(rt, &mut runners, looks, gate);
    let parties = stand_up(alloc, runners)?;
    Ok(parties)
}
