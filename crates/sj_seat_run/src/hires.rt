//! The parties before any event, with their lanes.
ghost use Rattle.std.specs.Prelude.{◌≡◌, ◌<◌, ◌≤◌, ℕ, Err, IfErr, IfOk, is_some, length, vec_len};
ghost use Rattle.sj_check.specs.Held.{file_in as held};
ghost use Rattle.sj_lane.specs.Square.{AllJoined, IsFresh, IsSquare, NoFault};
ghost use Rattle.sj_lane.specs.Told.{Rose};
ghost use Rattle.sj_lang.specs.FileAt.{body_named};
ghost use Rattle.sj_lang.specs.FileView.{file_of};
ghost use Rattle.sj_seat.specs.Places.{CarriesPlaces};
ghost use Rattle.sj_seat_run.specs.Refusals.{IsEarly};
ghost use Rattle.sj_seat_run.specs.Runners.{AreSeated, HasBegun, is_coded};
ghost use Rattle.sj_seat_run.specs.Seats.{seats_by};
ghost use Rattle.sj_table.specs.Spots.{start_in};

use crate::refusal::SeatedRefusal;
use crate::runners::{Actor, Runner};
use sj_base::NoMemory;
use sj_check::Accepted;
use sj_lane::{InLane, Lanes, Links, MakeRefusal, OutLane};
use sj_node::Node;
use sj_seat::Guest;
use sj_table::Table;
use sj_work::Worker;
use std::alloc::Global;

/// The parties' lanes.
pub(crate) fn lanes_for<L: Links>(
    alloc: Global,
    parties: u16,
    links: &mut L,
) -> Result<Vec<Lanes<L::Out, L::In>>, SeatedRefusal>
    ensures square { IfOk result (λ v. (vec_len v ≡ parties) × IsSquare v.items) }
    ensures joined { IfOk result (λ v. AllJoined L.joined v.items) }
    ensures fresh { IfOk result (λ v. IsFresh L.Out.pushed L.In.popped L.Out.vain L.In.vain (L.tells links.old) v.items) }
    ensures faultless { IfOk result (λ v. NoFault L.Out.faults L.In.faults v.items) }
    ensures link_fault { result ≡ Err SeatedRefusal.LinkFault → Rose (L.faults links.old) (L.faults links.new) }
    ensures early { IfErr result IsEarly }
    ensures tells { L.tells links.new ≡ L.tells links.old }
    ensures faults { L.faults links.old ≤ L.faults links.new }
{
    match links.make(alloc, parties) {
        Ok(lanes) => Ok(lanes),
        Err(MakeRefusal::Fault) => Err(SeatedRefusal::LinkFault),
        Err(MakeRefusal::NoMemory) => Err(SeatedRefusal::NoMemory),
    }
}

/// The party with those lanes, which its code plays where it has one.
fn seat_for<'a, O: OutLane, I: InLane, G, C: Drop>(
    alloc: Global,
    accepted: &Accepted,
    table: &Table,
    party: u16,
    lanes: Lanes<O, I>,
    code: Option<C>,
    texts: usize,
    looks: u32,
    gate: &'a G,
) -> Result<Runner<'a, O, I, G, C>, NoMemory>
    requires party { party < length (file_of (held accepted.now)).parties }
    requires starts { (p : ℕ) → start_in table.now p
        ≡ body_named (file_of (held accepted.now)).protocols p }
    requires carries { CarriesPlaces table.now }
    ensures begun { IfOk result (HasBegun (file_of (held accepted.now)) table.now party lanes) }
    ensures coded { IfOk result (λ r. is_coded r ≡ is_some code) }
{
    match code {
        None => {
            let node = Node::with_table(alloc, accepted, party, 0, table.copied()?)?;
            Ok(Runner::Written(Worker::new(node, lanes)))
        }
        Some(code) => {
            let guest = Guest::start(alloc, accepted, table, party, lanes, texts, looks, gate)?;
            let opened = Vec::new(alloc);
            Ok(Runner::Coded(Actor {
                guest,
                code,
                opened,
            }))
        }
    }
}

/// All parties with the lanes of their numbers. Each is played by its code, where it has one, which
/// may name so many texts.
pub(crate) fn take_seats<'a, O: OutLane, I: InLane, G, C: Drop>(
    alloc: Global,
    accepted: &Accepted,
    table: &Table,
    codes: Vec<Option<C>>,
    texts: usize,
    lanes: Vec<Lanes<O, I>>,
    looks: u32,
    gate: &'a G,
) -> Result<Vec<Runner<'a, O, I, G, C>>, NoMemory>
    requires count { length lanes.items ≡ length (file_of (held accepted.now)).parties }
    requires few { length lanes.items ≤ 65535 }
    requires starts { (p : ℕ) → start_in table.now p
        ≡ body_named (file_of (held accepted.now)).protocols p }
    requires carries { CarriesPlaces table.now }
    ensures { IfOk result (λ runners. AreSeated (file_of (held accepted.now)) table.now
        (seats_by codes.items) lanes.items (length lanes.items) runners.items) }
{
    let mut codes = codes.into_iter();
    let mut runners = Vec::new(alloc);
    let mut party: u16 = 0;
    for own in lanes {
        let code = match codes.next() {
            Some(code) => code,
            None => None,
        };
        let runner = seat_for(alloc, accepted, table, party, own, code, texts, looks, gate)?;
        runners.push(runner)?;
        party = party.saturating_add(1);
    }
    Ok(runners)
}
