//! A run with one seat.
ghost use Rattle.std.specs.Prelude.{◌≡◌, ◌<◌, ◌≤◌, Err, IfErr, IfOk, length};
ghost use Rattle.sj_check.specs.Held.{file_in as held};
ghost use Rattle.sj_lane.specs.Told.{Rose};
ghost use Rattle.sj_lang.specs.FileView.{file_of};
ghost use Rattle.sj_seat_end.specs.Alone.{AreAlone, AreNobodys, is_party};
ghost use Rattle.sj_seat_end.specs.Told.{IsAfterRun, IsAtEnd};
ghost use Rattle.sj_seat_run.specs.Refusals.{IsRefusedOver};

use crate::ending::run_to_end;
use sj_base::NoMemory;
use sj_check::Accepted;
use sj_lane::Links;
use sj_seat_run::{Play, SeatedRefusal};
use sj_seats::SeatedWorld;
use sj_work::Gate;
use std::alloc::Global;
use std::thread::Threads;

/// How a run with one seat ended: its world, in which nothing is left to do, and the code.
#[derive(Drop)]
pub struct AloneEnd<C> {
    pub world: SeatedWorld,
    pub code: C,
}

/// So many parties that have no code.
fn nobodys<C: Drop>(alloc: Global, count: u16) -> Result<Vec<Option<C>>, NoMemory>
    ensures { IfOk result (λ codes. AreNobodys count codes.items) }
{
    let mut codes = Vec::new(alloc);
    for n in 0..count {
        codes.push(None)?;
    }
    Ok(codes)
}

/// The code as that party's, and no code of any other.
fn alone<C: Drop>(alloc: Global, party: u16, code: C) -> Result<Vec<Option<C>>, NoMemory>
    ensures { IfOk result (λ codes. AreAlone party codes.items) }
{
    let mut codes = nobodys(alloc, party)?;
    codes.push(Some(code))?;
    Ok(codes)
}

/// Runs a file as `run_to_end` does, with code for one party alone.
///
/// Without memory for the run, or at a fault of the links, the code is lost.
pub fn run_alone<R: Threads + Sync, L: Links, G: Gate, C: Play + Send + Drop>(
    rt: &R,
    alloc: Global,
    accepted: &Accepted,
    party: u16,
    code: C,
    texts: usize,
    looks: u32,
    links: &mut L,
    gate: &G,
) -> Result<AloneEnd<C>, SeatedRefusal>
    requires { party < length (file_of (held accepted.now)).parties }

    // As of `run_to_end`, where that party alone has a code.
    ensures end { IfOk result (λ e. IsAtEnd (file_of (held accepted.now)) (is_party party)
        e.world) }
    ensures logged { IfOk result (λ e. IsAfterRun L.Out.OutLane L.In.InLane L.joined
        (file_of (held accepted.now)) looks (L.tells links.old) (is_party party) e.world) }
    ensures link_fault { result ≡ Err SeatedRefusal.LinkFault → Rose (L.faults links.old) (L.faults links.new) }
    ensures cause { IfErr result (IsRefusedOver L.Out.OutLane L.In.InLane L.joined
        (file_of (held accepted.now)) looks (L.tells links.old) (is_party party)) }
    ensures tells { L.tells links.new ≡ L.tells links.old }
    ensures faults { L.faults links.old ≤ L.faults links.new }
{
    let codes = match alone(alloc, party, code) {
        Ok(codes) => codes,
        Err(NoMemory) => return Err(SeatedRefusal::NoMemory),
    };
    let end = match run_to_end(rt, alloc, accepted, codes, texts, looks, links, gate) {
        Ok(end) => end,
        Err(refusal) => return Err(refusal),
    };
    let world = end.world;
    let mut codes = end.codes;
    match codes.swap_remove(party as usize) {
        Some(code) => Ok(AloneEnd { world, code }),
        // The party has a code, as before.
        None => Err(SeatedRefusal::NoMemory),
    }
}
