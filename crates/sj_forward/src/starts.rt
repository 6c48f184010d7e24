//! A forwarding world before any event.
ghost use Rattle.std.specs.Prelude.{◌≡◌, ◌≤◌, ℕ, [], IfOk, OnOk, length, map};
ghost use Rattle.sj_check.specs.Held.{file_in as held};
ghost use Rattle.sj_forward.specs.Starting.{AreFirst, AreFirstRows, IsFirst, IsFirstRow, IsFirstSlot};
ghost use Rattle.sj_lang.specs.FileAt.{ConnectAt, FileAt};
ghost use Rattle.sj_lang.specs.FileView.{connect_of, decl_of, file_of, party_of};
ghost use Rattle.sj_lang.specs.Limits.{limits};
ghost use Rattle.sj_plain.specs.SharedFile.{without_words};
ghost use Rattle.sj_base.specs.declared.EndId.{EndId};
ghost use Rattle.sj_rules.specs.Record.{other_end};
ghost use Rattle.sj_rules.specs.Start.{declared_on};

use crate::forwarder::Forwarder;
use crate::forwarder_world::ForwarderWorld;
use crate::records::{Record, Stand};
use crate::slot::Slot;
use sj_base::NoMemory;
use sj_check::Accepted;
use sj_lang::{Connect, EndDecl, File, Party};
use sj_machine::party_of_name;
use sj_plain::Plain;
use std::alloc::Global;
use std::collections::VecDeque;

/// The slot of an end, which has it where it is the party's. Messages on it go to the other end's
/// party.
fn first_slot(
    alloc: Global,
    parties: &[Party],
    party: u16,
    own: EndDecl,
    other: EndDecl,
) -> Result<Slot, NoMemory>
    requires { length parties.now ≤ limits.parties }
    ensures { IfOk result (λ s. (file : FileAt) (e : EndId) (c : ConnectAt) →
        file.parties ≡ map party_of parties.now → declared_on e.side c ≡ decl_of own →
        declared_on (other_end e).side c ≡ decl_of other → IsFirstSlot file party e c s) }
{
    let mut slot = Slot::new(alloc);
    if party_of_name(parties, own.party) != party as usize {
        return Ok(slot);
    }
    let behind = party_of_name(parties, other.party) as u16;
    let stand = Stand::Held(VecDeque::new(alloc));
    slot.records.push(Some(Record { behind, stand }))?;
    slot.used = Some(0);
    Ok(slot)
}

/// The slots of a connection's two ends.
fn first_row(
    alloc: Global,
    parties: &[Party],
    party: u16,
    connect: Connect,
) -> Result<Vec<Slot>, NoMemory>
    requires { length parties.now ≤ limits.parties }
    ensures { IfOk result (λ row. (file : FileAt) (sess : ℕ) →
        file.parties ≡ map party_of parties.now →
        IsFirstRow file party sess (connect_of connect) row.items) }
{
    let mut row = Vec::new(alloc);
    let first = first_slot(alloc, parties, party, connect.first, connect.second)?;
    row.push(first)?;
    let second = first_slot(alloc, parties, party, connect.second, connect.first)?;
    row.push(second)?;
    Ok(row)
}

/// The slots of all connections' ends.
fn first_rows(alloc: Global, file: &File, party: u16) -> Result<Vec<Vec<Slot>>, NoMemory>
    requires { length (file_of file.now).parties ≤ limits.parties }
    ensures { IfOk result (λ rows. AreFirstRows (file_of file.now) party
        (length (file_of file.now).connects) rows.items) }
{
    let mut rows = Vec::new(alloc);
    let mut at = 0;
    while at < file.connects.len() {
        let connect = file.connects[at];
        let row = first_row(alloc, &file.parties, party, connect)?;
        rows.push(row)?;
        at += 1;
    }
    Ok(rows)
}

/// The party before any event.
fn first_forwarder(alloc: Global, file: &File, party: u16) -> Result<Forwarder, NoMemory>
    requires { length (file_of file.now).parties ≤ limits.parties }
    ensures { IfOk result (λ d. IsFirst (file_of file.now) party d) }
{
    let ends = first_rows(alloc, file, party)?;
    Ok(Forwarder {
        alloc,
        requests: 0,
        offers: Vec::new(alloc),
        ends,
        outs: Vec::new(alloc),
    })
}

/// All parties before any event.
fn first_forwarders(alloc: Global, file: &File) -> Result<Vec<Forwarder>, NoMemory>
    requires { length (file_of file.now).parties ≤ limits.parties }
    ensures { IfOk result (λ forwarders. AreFirst (file_of file.now)
        (length (file_of file.now).parties) forwarders.items) }
{
    let mut forwarders = Vec::new(alloc);
    let parties = file.parties.len();
    for party in 0..parties {
        let forwarder = first_forwarder(alloc, file, party as u16)?;
        forwarders.push(forwarder)?;
    }
    Ok(forwarders)
}

impl ForwarderWorld {
    ghost use Rattle.sj_forward.specs.ForwarderWorld.{IsReached, file_in, world_in};
    ghost use Rattle.sj_forward_rules.specs.Start.{forward_start};
    ghost use Rattle.sj_plain.specs.Plain.{acts_of};

    /// The parties of the file before any event, with nothing in their lanes.
    pub fn begin(alloc: Global, accepted: &Accepted) -> Result<ForwarderWorld, NoMemory>
        ensures reached { IfOk result (λ c. IsReached c) }
        ensures file { IfOk result (λ c. file_in c ≡ without_words (file_of (held accepted.now))) }
        ensures world { IfOk result (λ c. world_in c ≡ forward_start (file_of (held accepted.now))) }
        ensures acts { IfOk result (λ c. acts_of c.plain ≡ []) }
        ensures passed { IfOk result (λ c. c.passed ≡ 0) }
    {
        let plain = Plain::start(alloc, accepted)?;
        let forwarders = first_forwarders(alloc, accepted.file())?;
        Ok(ForwarderWorld {
            alloc,
            plain,
            forwarders,
            passed: 0,
            events: 0,
        })
    }
}
