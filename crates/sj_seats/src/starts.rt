//! A world with seats before any event.
ghost use Rattle.std.specs.Prelude.{◌≡◌, ◌<◌, ℕ, [], IfOk, length};
ghost use Rattle.sj_base.specs.declared.EndId.{EndId};
ghost use Rattle.sj_check.specs.Held.{file_in as held};
ghost use Rattle.sj_lang.specs.FileAt.{body_named};
ghost use Rattle.sj_lang.specs.FileView.{file_of};
ghost use Rattle.sj_plain.specs.SharedFile.{without_words};
ghost use Rattle.sj_seat.specs.Places.{CarriesPlaces};
ghost use Rattle.sj_seats.specs.Beginning.{AreBegun, HasBegun, Sat, SitsSo};
ghost use Rattle.sj_seats.specs.Core.{is_seat};
ghost use Rattle.sj_seats.specs.Openings.{opened_by};
ghost use Rattle.sj_seats.specs.Played.{IsReached, chairs_in, file_in, history_in, opened_in};
ghost use Rattle.sj_seats.specs.Seated.{seat_in};
ghost use Rattle.sj_table.specs.Spots.{start_in};

use crate::played::{Chair, PlayedWorld};
use sj_base::NoMemory;
use sj_check::Accepted;
use sj_node::Node;
use sj_plain::SharedFile;
use sj_seat::{OpenedSession, first_ends, party_openings};
use sj_table::Table;
use std::alloc::Global;

/// What the code of the party holds before its first call.
fn first_chair(
    alloc: Global,
    accepted: &Accepted,
    table: &Table,
    party: u16,
) -> Result<Chair, NoMemory>
    requires party { party < length (file_of (held accepted.now)).parties }
    requires starts { (p : ℕ) → start_in table.now p
        ≡ body_named (file_of (held accepted.now)).protocols p }
    ensures { IfOk result (Sat (file_of (held accepted.now)) table.now party) }
{
    let file = accepted.file();
    Ok(Chair {
        ends: first_ends(alloc, file, table, party)?,
        may: party_openings(alloc, file, table, party)?,
        calls: 0,
    })
}

/// The same, where the party is played by code; none where it goes by the file.
fn first_seat(
    alloc: Global,
    accepted: &Accepted,
    table: &Table,
    party: u16,
    seated: bool,
) -> Result<Option<Chair>, NoMemory>
    requires party { party < length (file_of (held accepted.now)).parties }
    requires starts { (p : ℕ) → start_in table.now p
        ≡ body_named (file_of (held accepted.now)).protocols p }
    ensures { IfOk result (SitsSo (file_of (held accepted.now)) table.now party seated) }
{
    if seated {
        let chair = first_chair(alloc, accepted, table, party)?;
        Ok(Some(chair))
    } else {
        Ok(None)
    }
}

/// The node of the party before any event, with nothing to do of its own where it is played by code.
fn first_node(
    alloc: Global,
    accepted: &Accepted,
    table: &Table,
    party: u16,
    seated: bool,
) -> Result<Node, NoMemory>
    requires party { party < length (file_of (held accepted.now)).parties }
    requires starts { (p : ℕ) → start_in table.now p
        ≡ body_named (file_of (held accepted.now)).protocols p }
    ensures { IfOk result (HasBegun (file_of (held accepted.now)) table.now party seated) }
{
    let own = table.copied()?;
    if seated {
        Node::seated(alloc, accepted, own, party)
    } else {
        Node::with_table(alloc, accepted, party, 0, own)
    }
}

impl PlayedWorld {
    /// The parties of the file before any event, with nothing in their lanes. The codes will open
    /// their sessions so.
    pub fn begin(
        alloc: Global,
        accepted: &Accepted,
        table: &Table,
        seats: &[bool],
        opened: Vec<Vec<OpenedSession>>,
    ) -> Result<PlayedWorld, NoMemory>
        requires starts { (p : ℕ) → start_in table.now p
            ≡ body_named (file_of (held accepted.now)).protocols p }
        requires carries { CarriesPlaces table.now }
        requires count { length seats.now ≡ length (file_of (held accepted.now)).parties }
        ensures reached { IfOk result (λ c. IsReached c) }
        ensures file { IfOk result (λ c. file_in c ≡ without_words (file_of (held accepted.now))) }
        ensures history { IfOk result (λ c. history_in c ≡ []) }
        ensures seats { IfOk result (λ c. (q : ℕ) → is_seat (chairs_in c) q ≡ seat_in seats.now q) }
        ensures opened { IfOk result (λ c. (q : ℕ) (e : EndId) → opened_in c q e ≡ opened_by opened.items q e) }
    {
        let mut nodes = Vec::new(alloc);
        let mut chairs = Vec::new(alloc);
        for party in 0..seats.len() {
            let seated = seats[party];
            let node = first_node(alloc, accepted, table, party as u16, seated)?;
            nodes.push(node)?;
            let chair = first_seat(alloc, accepted, table, party as u16, seated)?;
            chairs.push(chair)?;
        }
        let kept = SharedFile::of(accepted)?;
        let table = table.copied()?;
        let history = Vec::new(alloc);
        Ok(PlayedWorld {
            alloc,
            kept,
            table,
            nodes,
            chairs,
            opened,
            history,
        })
    }
}
