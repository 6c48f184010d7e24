//! Sessions that are opened at run time: whether what a party accepts meets what is requested.
#![tactic(auto, using(crate::proofs::OpeningLemmas::gathers))]

ghost use Rattle.std.specs.Prelude.{◌≡◌, ◌++◌, map, ℕ, List, [], ◌∷◌, IfOk, OnOk};
ghost use Rattle.std.specs.List.{AllZip};
ghost use Rattle.sj_lang.specs.CodeView.{code_of, deed_of, arm_of, branches_of};
ghost use Rattle.sj_lang.specs.FileAt.{ProtocolAt, body_named as body_of};
ghost use Rattle.sj_lang.specs.FileView.{party_of};
ghost use Rattle.sj_lang.specs.MeetTests.{meets};
ghost use Rattle.sj_acceptance.specs.FileTests as tests;
ghost use Rattle.sj_acceptance.specs.Openings.{OpeningAt, as_request, as_accept, found_in, found_inside, found_in_arms};
ghost use Rattle.sj_check.specs.Openings.{AreOf, opening_of, openings_of, is_asked, meets_gathered, each_accept, gathered_tests};
ghost use Rattle.sj_check.specs.Told.{Judges};
ghost use Rattle.sj_check.specs.Views.{protocols_of, parties_of};

use crate::CheckRefusal;
use crate::places::{body_named, do_meet};
use crate::rules::{CheckRule, broken};
use sj_base::NoMemory;
use sj_lang::{Deed, Party, Proto, ProtocolDef, Stmt, StmtArm};
use std::alloc::Global;

/// A request or an accept, with its protocol and its other party.
#[derive(Clone, Copy, Debug, PartialEq, Eq)]
pub struct Opening {
    pub line: u32,
    pub protocol: u16,
    pub party: u16,
}

/// The requests of a party, and its accepts in order.
#[derive(Drop)]
pub struct Openings {
    pub party: u16,
    pub requests: Vec<Opening>,
    pub accepts: Vec<Opening>,
}

/// The accepts of all parties, in order.
pub fn openings_meet(
    alloc: Global,
    protocols: &[ProtocolDef],
    parties: &[Party],
) -> Result<(), CheckRefusal>
    ensures { let all = parties_of parties.now in
        Judges (tests.opening_tests (protocols_of protocols.now) all all) result }
{
    let all = gathered(alloc, parties)?;
    are_met(alloc, protocols, &all)
}

fn gathered(alloc: Global, parties: &[Party]) -> Result<Vec<Openings>, NoMemory>
    ensures { IfOk result (λ all. AllZip AreOf all.items (parties_of parties.now)) }
{
    let mut all = Vec::new(alloc);
    for party in parties {
        all.push(gathered_of(alloc, party)?)?;
    }
    Ok(all)
}

fn gathered_of(alloc: Global, party: &Party) -> Result<Openings, NoMemory>
    ensures { IfOk result (λ all. AreOf all (party_of party.now)) }
{
    let mut all = Openings {
        party: party.name,
        requests: Vec::new(alloc),
        accepts: Vec::new(alloc),
    };
    add_block(&mut all, &party.body)?;
    all.requests = distinct(alloc, &all.requests)?;
    Ok(all)
}

// Of openings of one protocol and one party the first.
fn distinct(alloc: Global, all: &[Opening]) -> Result<Vec<Opening>, NoMemory>
    ensures { IfOk result (λ some. (ps : List ProtocolAt) (b : ℕ) (a : OpeningAt) →
        tests.meets_each ps b a (openings_of some.items) ≡ tests.meets_each ps b a (openings_of all.now)) }
{
    let mut some = Vec::new(alloc);
    for opening in all {
        if !is_asked(&some, opening.protocol, opening.party) {
            some.push(*opening)?;
        }
    }
    Ok(some)
}

fn is_asked(all: &[Opening], protocol: u16, party: u16) -> bool
    ensures { result ≡ is_asked protocol party (openings_of all.now) }
{
    for opening in all {
        if opening.protocol == protocol && opening.party == party {
            return true;
        }
    }
    false
}

fn are_met(alloc: Global, protocols: &[ProtocolDef], all: &[Openings]) -> Result<(), CheckRefusal>
    ensures { Judges (gathered_tests (protocols_of protocols.now) all.now all.now) result }
{
    for own in all {
        accepts_met(alloc, protocols, all, own)?;
    }
    Ok(())
}

fn accepts_met(
    alloc: Global,
    protocols: &[ProtocolDef],
    all: &[Openings],
    own: &Openings,
) -> Result<(), CheckRefusal>
    ensures { let accepts = openings_of own.now.accepts.items in
        Judges (each_accept (protocols_of protocols.now) all.now own.now.party accepts) result }
{
    for accept in &own.accepts {
        if !meets_requests(alloc, protocols, all, own.party, accept) {
            return Err(broken(CheckRule::AcceptUnmet, accept.line));
        }
    }
    Ok(())
}

fn meets_requests(
    alloc: Global,
    protocols: &[ProtocolDef],
    all: &[Openings],
    party: u16,
    accept: &Opening,
) -> bool
    ensures { result ≡ meets_gathered (protocols_of protocols.now) party (opening_of accept.now) all.now }
{
    for other in all {
        if other.party == accept.party
            && !meets_each(alloc, protocols, &other.requests, party, accept)
        {
            return false;
        }
    }
    true
}

// Whether the accept meets each of these requests that is to that party.
fn meets_each(
    alloc: Global,
    protocols: &[ProtocolDef],
    requests: &[Opening],
    party: u16,
    accept: &Opening,
) -> bool
    ensures { let asked = openings_of requests.now in
        result ≡ tests.meets_each (protocols_of protocols.now) party (opening_of accept.now) asked }
{
    for request in requests {
        if request.party == party
            && !bodies_meet(alloc, protocols, request.protocol, accept.protocol)
        {
            return false;
        }
    }
    true
}

fn bodies_meet(alloc: Global, protocols: &[ProtocolDef], one: u16, other: u16) -> bool
    ensures { let ps = protocols_of protocols.now in
        result ≡ meets (body_of ps one) (body_of ps other) }
{
    let empty = Proto {
        items: Vec::new(alloc),
    };
    let first = match body_named(protocols, one) {
        Some(body) => body,
        None => &empty,
    };
    let second = match body_named(protocols, other) {
        Some(body) => body,
        None => &empty,
    };
    do_meet(first, second)
}

#[cycle(gather)]
fn add_block(all: &mut Openings, stmts: &[Stmt]) -> Result<(), NoMemory>
    ensures party { OnOk result (all.new.party ≡ all.old.party) }
    ensures requests { let more = found_in as_request (code_of stmts.now) in
        OnOk result (openings_of all.new.requests.items ≡ openings_of all.old.requests.items ++ more) }
    ensures accepts { let more = found_in as_accept (code_of stmts.now) in
        OnOk result (openings_of all.new.accepts.items ≡ openings_of all.old.accepts.items ++ more) }
{
    for stmt in stmts {
        add_deed(all, stmt.line, &stmt.deed)?;
    }
    Ok(())
}

#[cycle(gather)]
fn add_deed(all: &mut Openings, line: u32, deed: &Deed) -> Result<(), NoMemory>
    ensures party { OnOk result (all.new.party ≡ all.old.party) }
    ensures requests { let act = deed_of deed.now in
        let more = as_request line act ++ found_inside as_request act in
        OnOk result (openings_of all.new.requests.items ≡ openings_of all.old.requests.items ++ more) }
    ensures accepts { let act = deed_of deed.now in
        let more = as_accept line act ++ found_inside as_accept act in
        OnOk result (openings_of all.new.accepts.items ≡ openings_of all.old.accepts.items ++ more) }
{
    match deed {
        Deed::Branch { end: _, arms } => add_arms(all, arms),
        Deed::OutWhile {
            end: _,
            count: _,
            body,
        } => add_block(all, body),
        Deed::InWhile { end: _, body } => add_block(all, body),
        Deed::Relay {
            from: _,
            to: _,
            body,
        } => add_block(all, body),
        Deed::If { test: _, yes, no } => {
            add_block(all, yes)?;
            add_block(all, no)
        }
        Deed::Request {
            end: _,
            protocol,
            party,
        } => add(&mut all.requests, line, *protocol, *party),
        Deed::Accept {
            end: _,
            protocol,
            party,
        } => add(&mut all.accepts, line, *protocol, *party),
        Deed::Send { end: _, value: _ } => Ok(()),
        Deed::Delegate { end: _, sent: _ } => Ok(()),
        Deed::Take {
            end: _,
            into: _,
            kind: _,
        } => Ok(()),
        Deed::TakeEnd {
            end: _,
            into: _,
            protocol: _,
        } => Ok(()),
        Deed::Select { end: _, label: _ } => Ok(()),
        Deed::Let { name: _, value: _ } => Ok(()),
        Deed::Close { end: _ } => Ok(()),
    }
}

#[cycle(gather)]
fn add_arms(all: &mut Openings, arms: &[StmtArm]) -> Result<(), NoMemory>
    ensures party { OnOk result (all.new.party ≡ all.old.party) }
    ensures requests { let more = found_in_arms as_request (branches_of (map arm_of arms.now)) in
        OnOk result (openings_of all.new.requests.items ≡ openings_of all.old.requests.items ++ more) }
    ensures accepts { let more = found_in_arms as_accept (branches_of (map arm_of arms.now)) in
        OnOk result (openings_of all.new.accepts.items ≡ openings_of all.old.accepts.items ++ more) }
{
    for arm in arms {
        add_block(all, &arm.body)?;
    }
    Ok(())
}

fn add(some: &mut Vec<Opening>, line: u32, protocol: u16, party: u16) -> Result<(), NoMemory>
    ensures { OnOk result (some.new.items
        ≡ some.old.items ++ record { line = line; protocol = protocol; party = party } ∷ []) }
{
    some.push(Opening {
        line,
        protocol,
        party,
    })?;
    Ok(())
}
