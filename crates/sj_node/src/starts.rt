//! A party's node before any event.
ghost use Rattle.std.specs.Prelude.{◌≡◌, ◌<◌, ◌≤◌, ℕ, IfOk, length, map};
ghost use Rattle.sj_acceptance.specs.Accepted.{IsAccepted};
ghost use Rattle.sj_check.specs.Held.{file_in};
ghost use Rattle.sj_lang.specs.FileAt.{ConnectAt, FileAt, body_named};
ghost use Rattle.sj_lang.specs.FileView.{decl_of, file_of, party_of as party_seen};
ghost use Rattle.sj_lang.specs.Limits.{limits};
ghost use Rattle.sj_node.specs.Reading.{table_of};
ghost use Rattle.sj_machine.specs.Sound.{program_at};
ghost use Rattle.sj_node.specs.Node.{wants_of};
ghost use Rattle.sj_node.specs.Starting.{Begins, BeginsWith, idle_parties, nothing_to_do, slot_at_places, slots_from};
ghost use Rattle.sj_rules.specs.Start.{declared_on, held_by};
ghost use Rattle.sj_rules.specs.Limits.{clock_end};
ghost use Rattle.sj_semantics.specs.Ends.{other_side};
ghost use Rattle.sj_semantics.specs.declared.Want.TheVariants as wants;
ghost use Rattle.sj_table.specs.Spots.{start_in};

use crate::Node;
use crate::slots::Main;
use sj_base::{EndId, NoMemory};
use sj_check::Accepted;
use sj_end::Held;
use sj_lang::{EndDecl, File, Names, Party};
use sj_machine::{Machine, party_of_name};
use sj_table::Table;
use std::alloc::Global;

/// The record of an end before any event, where it is the party's.
fn first_record(
    alloc: Global,
    parties: &[Party],
    table: &Table,
    party: u16,
    id: EndId,
    own: EndDecl,
    other: EndDecl,
) -> Option<Main>
    requires { length parties.now ≤ limits.parties }
    ensures { (file : FileAt) (c : ConnectAt) → file.parties ≡ map party_seen parties.now →
        ((p : ℕ) → start_in table.now p ≡ body_named file.protocols p) →
        declared_on id.side c ≡ decl_of own → declared_on (other_side id.side) c ≡ decl_of other →
        slot_at_places table.now result ≡ held_by file party id c }
{
    if party_of_name(parties, own.party) != party as usize {
        return None;
    }
    let peer = party_of_name(parties, other.party) as u16;
    let place = table.start(own.protocol);
    Some(Main::Held(Held::first(alloc, id, peer, place)))
}

/// The slots of all ends before any event.
fn first_slots(
    alloc: Global,
    file: &File,
    table: &Table,
    party: u16,
) -> Result<Vec<Option<Main>>, NoMemory>
    requires parties { length (file_of file.now).parties ≤ limits.parties }
    requires connects { length (file_of file.now).connects ≤ limits.connects }
    requires starts { (p : ℕ) → start_in table.now p ≡ body_named (file_of file.now).protocols p }
    ensures slots { IfOk result (λ slots. map (slot_at_places table.now) slots.items
        ≡ slots_from (file_of file.now) party 0 (file_of file.now).connects) }
{
    let mut slots = Vec::new(alloc);
    let mut at = 0;
    while at < file.connects.len() {
        let c = file.connects[at];
        let sess = at as u32;
        let first = EndId { sess, side: 0 };
        let second = EndId { sess, side: 1 };
        slots.push(first_record(alloc, &file.parties, table, party, first, c.first, c.second))?;
        slots.push(first_record(
            alloc,
            &file.parties,
            table,
            party,
            second,
            c.second,
            c.first,
        ))?;
        at += 1;
    }
    Ok(slots)
}

impl Node {
    /// The party at the start of the file, at that clock, over the file's table.
    pub fn start(
        alloc: Global,
        accepted: &Accepted,
        party: u16,
        clock: u64,
    ) -> Result<Node, NoMemory>
        requires party { party < length (file_of (file_in accepted.now)).parties }
        requires clock { clock ≤ clock_end }
        ensures { IfOk result (λ n. Begins (file_of (file_in accepted.now)) party clock n) }
    {
        let table = accepted.table().copied()?;
        Node::with_table(alloc, accepted, party, clock, table)
    }

    /// The party at the start of the file, at that clock, over a table of the file's protocols.
    /// Spots that nodes over equal tables send each other stand for the same places.
    pub fn with_table(
        alloc: Global,
        accepted: &Accepted,
        party: u16,
        clock: u64,
        table: Table,
    ) -> Result<Node, NoMemory>
        requires party { party < length (file_of (file_in accepted.now)).parties }
        requires clock { clock ≤ clock_end }
        requires starts { (p : ℕ) → start_in table p
            ≡ body_named (file_of (file_in accepted.now)).protocols p }
        ensures begins { IfOk result (λ n. Begins (file_of (file_in accepted.now)) party clock n) }
        ensures table { IfOk result (λ n. table_of n ≡ table) }
    {
        let machine = Machine::start(alloc, accepted.file(), party)?;
        begun(alloc, accepted, table, party, clock, machine)
    }

    /// The party at the start of the file, with nothing to do of its own: it acts by calls alone.
    /// The table is one of the file's protocols, as in `with_table`, and may have other places too.
    pub fn seated(
        alloc: Global,
        accepted: &Accepted,
        table: Table,
        party: u16,
    ) -> Result<Node, NoMemory>
        requires party { party < length (file_of (file_in accepted.now)).parties }
        requires starts { (p : ℕ) → start_in table p
            ≡ body_named (file_of (file_in accepted.now)).protocols p }
        ensures begins { IfOk result (λ n. BeginsWith (file_of (file_in accepted.now)) party 0
            (nothing_to_do (file_of (file_in accepted.now))) n) }
        ensures ended { IfOk result (λ n. wants_of n ≡ wants.Ended) }
        ensures table { IfOk result (λ n. table_of n ≡ table) }
    {
        let machine = idle_machine(alloc, accepted.file(), party)?;
        begun(alloc, accepted, table, party, 0, machine)
    }
}

/// The party at the start of the file, at that clock, with that program.
fn begun(
    alloc: Global,
    accepted: &Accepted,
    table: Table,
    party: u16,
    clock: u64,
    machine: Machine,
) -> Result<Node, NoMemory>
    requires starts { (p : ℕ) → start_in table p
        ≡ body_named (file_of (file_in accepted.now)).protocols p }
    ensures begins { IfOk result (λ n. BeginsWith (file_of (file_in accepted.now)) party clock
        (program_at machine) n) }
    ensures table { IfOk result (λ n. table_of n ≡ table) }
{
    let file = accepted.file();
    let mains = first_slots(alloc, file, &table, party)?;
    Ok(Node {
        alloc,
        party,
        parties: file.parties.len() as u16,
        connects: file.connects.len(),
        clock,
        machine,
        table,
        requests: 0,
        offers: Vec::new(alloc),
        mains,
        olds: Vec::new(alloc),
        outs: Vec::new(alloc),
        log: Vec::new(alloc),
    })
}

/// The party with nothing to do: that of a file in which none has anything to do.
fn idle_machine(alloc: Global, file: &File, party: u16) -> Result<Machine, NoMemory>
    requires accepted { IsAccepted (file_of file.now) }
    requires party { party < length (file_of file.now).parties }
    ensures { IfOk result (λ m. program_at m ≡ nothing_to_do (file_of file.now)) }
{
    let idle = File {
        names: Names::new(alloc),
        protocols: Vec::new(alloc),
        parties: idle_parties(alloc, &file.parties)?,
        connects: Vec::new(alloc),
    };
    Machine::start(alloc, &idle, party)
}

/// The same parties, with nothing to do.
fn idle_parties(alloc: Global, parties: &[Party]) -> Result<Vec<Party>, NoMemory>
    ensures { IfOk result (λ out. map party_seen out.items ≡ idle_parties (map party_seen parties.now)) }
{
    let mut out = Vec::new(alloc);
    for party in parties {
        let line = party.line;
        let name = party.name;
        let body = Vec::new(alloc);
        out.push(Party { line, name, body })?;
    }
    Ok(out)
}
