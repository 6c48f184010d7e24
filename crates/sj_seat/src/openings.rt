//! The sessions that a party may open.
#![tactic(auto, using(crate::proofs::OpeningLemmas::gathers))]

ghost use Rattle.std.specs.Prelude.{◌≡◌, ◌≤◌, ◌++◌, ◌<◌, ◌^◌, ℕ, [], ◌∷◌, IfOk, OnOk, Some, length, map, slice_get};
ghost use Rattle.sj_acceptance.specs.Openings.{accepts_of, as_accept, as_request, found_in, found_in_arms, found_inside, requests_of};
ghost use Rattle.sj_lang.specs.CodeView.{arm_of, branches_of, code_of, deed_of};
ghost use Rattle.sj_lang.specs.FileAt.{body_named};
ghost use Rattle.sj_lang.specs.FileView.{file_of, party_of};
ghost use Rattle.sj_lang.specs.Limits.{limits};
ghost use Rattle.sj_seat.specs.Opened.{found_of, openings_at, opened_at, spot_opened};
ghost use Rattle.sj_seat_laws.specs.SeatedStart.{openings_by, openings_of};
ghost use Rattle.sj_table.specs.Spots.{start_in};

use sj_base::NoMemory;
use sj_lang::{Deed, File, Party, Stmt, StmtArm};
use sj_machine::party_of_name;
use sj_table::{Spot, Table};
use std::alloc::Global;

/// A session that a party may open with that other one: of which protocol, and where its own end
/// begins.
#[derive(Clone, Copy, Debug, PartialEq, Eq)]
pub struct Opening {
    pub party: u16,
    pub protocol: u16,
    pub place: Spot,
}

/// The sessions that a party may request, and those that it may accept.
#[derive(Drop)]
pub struct Openings {
    pub requests: Vec<Opening>,
    pub accepts: Vec<Opening>,
}

/// The spot at which the party's own end begins of such a session, where one may be opened.
pub(crate) fn spot_opened(openings: &[Opening], party: u16, protocol: u16) -> Option<Spot>
    ensures { result ≡ spot_opened openings.now party protocol }
{
    for opening in openings {
        if opening.party == party && opening.protocol == protocol {
            return Some(opening.place);
        }
    }
    None
}

/// A statement that opens a session, with the other party by its name.
#[derive(Clone, Copy)]
pub(crate) struct Found {
    line: u32,
    protocol: u16,
    party: u16,
}

/// The statements of a party that request, and those that accept.
#[derive(Drop)]
pub(crate) struct AllFound {
    requests: Vec<Found>,
    accepts: Vec<Found>,
}

/// The sessions that the party's statements open.
pub fn party_openings(
    alloc: Global,
    file: &File,
    table: &Table,
    party: u16,
) -> Result<Openings, NoMemory>
    requires few { length (file_of file.now).parties ≤ limits.parties }
    requires party { party < length (file_of file.now).parties }
    requires starts { (p : ℕ) → start_in table.now p ≡ body_named (file_of file.now).protocols p }
    ensures { IfOk result (λ os. openings_at table.now os
        ≡ openings_of (file_of file.now) (slice_get (file_of file.now).parties party)) }
{
    let found = found_by(alloc, &file.parties[party as usize])?;
    let requests = opened(alloc, file, table, &found.requests)?;
    let accepts = opened(alloc, file, table, &found.accepts)?;
    Ok(Openings { requests, accepts })
}

// Those of these statements whose other party is there.
fn opened(
    alloc: Global,
    file: &File,
    table: &Table,
    found: &[Found],
) -> Result<Vec<Opening>, NoMemory>
    requires few { length (file_of file.now).parties ≤ limits.parties }
    requires starts { (p : ℕ) → start_in table.now p ≡ body_named (file_of file.now).protocols p }
    ensures { IfOk result (λ os. opened_at table.now os.items
        ≡ openings_by (file_of file.now) (found_of found.now)) }
{
    let mut all = Vec::new(alloc);
    for statement in found {
        add_opened(&mut all, file, table, *statement)?;
    }
    Ok(all)
}

fn add_opened(
    all: &mut Vec<Opening>,
    file: &File,
    table: &Table,
    found: Found,
) -> Result<(), NoMemory>
    requires few { length (file_of file.now).parties ≤ limits.parties }
    requires starts { (p : ℕ) → start_in table.now p ≡ body_named (file_of file.now).protocols p }
    ensures { OnOk result (opened_at table.now all.new.items
        ≡ opened_at table.now all.old.items ++ openings_by (file_of file.now) (found_of (found ∷ []))) }
{
    let number = party_of_name(&file.parties, found.party);
    if number < file.parties.len() {
        all.push(Opening {
            party: narrow(number),
            protocol: found.protocol,
            place: table.start(found.protocol),
        })?;
    }
    Ok(())
}

fn narrow(number: usize) -> u16
    requires { number < 2 ^ 16 }
    ensures { result ≡ number }
{
    number as u16
}

fn found_by(alloc: Global, party: &Party) -> Result<AllFound, NoMemory>
    ensures requests { IfOk result (λ all. found_of all.requests.items ≡ requests_of (party_of party.now).code) }
    ensures accepts { IfOk result (λ all. found_of all.accepts.items ≡ accepts_of (party_of party.now).code) }
{
    let mut all = AllFound {
        requests: Vec::new(alloc),
        accepts: Vec::new(alloc),
    };
    add_block(&mut all, &party.body)?;
    Ok(all)
}

#[cycle(gather)]
fn add_block(all: &mut AllFound, stmts: &[Stmt]) -> Result<(), NoMemory>
    ensures requests { let more = found_in as_request (code_of stmts.now) in
        OnOk result (found_of all.new.requests.items ≡ found_of all.old.requests.items ++ more) }
    ensures accepts { let more = found_in as_accept (code_of stmts.now) in
        OnOk result (found_of all.new.accepts.items ≡ found_of all.old.accepts.items ++ more) }
{
    for stmt in stmts {
        add_deed(all, stmt.line, &stmt.deed)?;
    }
    Ok(())
}

#[cycle(gather)]
fn add_deed(all: &mut AllFound, line: u32, deed: &Deed) -> Result<(), NoMemory>
    ensures requests { let act = deed_of deed.now in
        let more = as_request line act ++ found_inside as_request act in
        OnOk result (found_of all.new.requests.items ≡ found_of all.old.requests.items ++ more) }
    ensures accepts { let act = deed_of deed.now in
        let more = as_accept line act ++ found_inside as_accept act in
        OnOk result (found_of all.new.accepts.items ≡ found_of all.old.accepts.items ++ more) }
{
    match deed {
        Deed::Branch { end: _, arms } => add_arms(all, arms),
        Deed::OutWhile {
            end: _,
            count: _,
            body,
        } => add_block(all, body),
        Deed::InWhile { end: _, body } => add_block(all, body),
        Deed::Relay {
            from: _,
            to: _,
            body,
        } => add_block(all, body),
        Deed::If { test: _, yes, no } => {
            add_block(all, yes)?;
            add_block(all, no)
        }
        Deed::Request {
            end: _,
            protocol,
            party,
        } => add(&mut all.requests, line, *protocol, *party),
        Deed::Accept {
            end: _,
            protocol,
            party,
        } => add(&mut all.accepts, line, *protocol, *party),
        Deed::Send { end: _, value: _ } => Ok(()),
        Deed::Delegate { end: _, sent: _ } => Ok(()),
        Deed::Take {
            end: _,
            into: _,
            kind: _,
        } => Ok(()),
        Deed::TakeEnd {
            end: _,
            into: _,
            protocol: _,
        } => Ok(()),
        Deed::Select { end: _, label: _ } => Ok(()),
        Deed::Let { name: _, value: _ } => Ok(()),
        Deed::Close { end: _ } => Ok(()),
    }
}

#[cycle(gather)]
fn add_arms(all: &mut AllFound, arms: &[StmtArm]) -> Result<(), NoMemory>
    ensures requests { let more = found_in_arms as_request (branches_of (map arm_of arms.now)) in
        OnOk result (found_of all.new.requests.items ≡ found_of all.old.requests.items ++ more) }
    ensures accepts { let more = found_in_arms as_accept (branches_of (map arm_of arms.now)) in
        OnOk result (found_of all.new.accepts.items ≡ found_of all.old.accepts.items ++ more) }
{
    for arm in arms {
        add_block(all, &arm.body)?;
    }
    Ok(())
}

fn add(found: &mut Vec<Found>, line: u32, protocol: u16, party: u16) -> Result<(), NoMemory>
    ensures { OnOk result (found.new.items
        ≡ found.old.items ++ record { line = line; protocol = protocol; party = party } ∷ []) }
{
    found.push(Found {
        line,
        protocol,
        party,
    })?;
    Ok(())
}
