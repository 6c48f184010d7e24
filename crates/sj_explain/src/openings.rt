//! Requests and accepts between two parties.

use crate::context::{Context, Exit, Seen, Site};
use crate::marks::{Part, Span};
use crate::pieces::Piece::{Number, Place, Said, Word};
use sj_base::NoMemory;
use sj_check::CheckRule;
use sj_lang::{Deed, Party, Proto, Stmt, StmtArm, meets};

// A request or an accept, with its protocol and the name of the other party.
#[derive(Clone, Copy)]
struct Opening {
    site: Site,
    is_request: bool,
    protocol: u16,
    party: u16,
}

/// Each accept meets the requests of the party from which it accepts.
pub(crate) fn meet_openings(context: Context<'_>, line: u32) -> Result<(), Exit> {
    let mut seen = Seen { line, count: 0 };
    for party in &context.file.parties {
        let mut openings = Vec::new(context.alloc);
        gather(&mut seen, &mut openings, &party.body)?;
        for accept in &openings {
            if !accept.is_request {
                meet_requests(context, party, *accept)?;
            }
        }
    }
    Ok(())
}

fn meet_requests(context: Context<'_>, to: &Party, accept: Opening) -> Result<(), Exit> {
    for from in &context.file.parties {
        if from.name == accept.party {
            let mut seen = Seen { line: 0, count: 0 };
            let mut openings = Vec::new(context.alloc);
            gather(&mut seen, &mut openings, &from.body)?;
            for request in &openings {
                if request.is_request && request.party == to.name {
                    meet_one(context, accept, *request)?;
                }
            }
        }
    }
    Ok(())
}

fn meet_one(context: Context<'_>, accept: Opening, request: Opening) -> Result<(), Exit> {
    let (Some(one), Some(other)) = (
        context.body(request.protocol),
        context.body(accept.protocol),
    ) else {
        return Ok(());
    };
    if meets(one, other) {
        return Ok(());
    }
    Err(tell_unmet(context, accept, request, one, other))
}

fn tell_unmet<'x>(
    context: Context<'_>,
    accept: Opening,
    request: Opening,
    one: &'x Proto,
    other: &'x Proto,
) -> Exit {
    let what = [
        Word(accept.party),
        Said(b" requests on line "),
        Number(u64::from(request.site.line)),
        Said(b" with "),
        Word(request.protocol),
        Said(b", "),
        Place(one),
        Said(b"; "),
        Word(accept.protocol),
        Said(b" is "),
        Place(other),
    ];
    context.stop(CheckRule::AcceptUnmet, accept.site, Span::Token(2), &what)
}

// The requests and accepts of a block, in order.
#[cycle(gathering)]
fn gather(seen: &mut Seen, openings: &mut Vec<Opening>, stmts: &[Stmt]) -> Result<(), NoMemory> {
    for stmt in stmts {
        let site = seen.enter(Part::Statement, stmt.line);
        gather_deed(seen, openings, site, &stmt.deed)?;
    }
    Ok(())
}

#[cycle(gathering)]
fn gather_deed(
    seen: &mut Seen,
    openings: &mut Vec<Opening>,
    site: Site,
    deed: &Deed,
) -> Result<(), NoMemory> {
    match deed {
        Deed::Branch { arms, .. } => gather_arms(seen, openings, arms),
        Deed::OutWhile { body, .. } => gather(seen, openings, body),
        Deed::InWhile { body, .. } => gather(seen, openings, body),
        Deed::Relay { body, .. } => gather(seen, openings, body),
        Deed::If { yes, no, .. } => {
            gather(seen, openings, yes)?;
            gather(seen, openings, no)
        }
        Deed::Request {
            protocol,
            party,
            ..
        } => { put_opening(openings, site, true, *protocol, *party) }
        Deed::Accept {
            protocol,
            party,
            ..
        } => { put_opening(openings, site, false, *protocol, *party) }
        _ => Ok(()),
    }
}

#[cycle(gathering)]
fn gather_arms(
    seen: &mut Seen,
    openings: &mut Vec<Opening>,
    arms: &[StmtArm],
) -> Result<(), NoMemory> {
    for arm in arms {
        gather(seen, openings, &arm.body)?;
    }
    Ok(())
}

fn put_opening(
    openings: &mut Vec<Opening>,
    site: Site,
    is_request: bool,
    protocol: u16,
    party: u16,
) -> Result<(), NoMemory> {
    openings.push(Opening {
        site,
        is_request,
        protocol,
        party,
    })?;
    Ok(())
}
