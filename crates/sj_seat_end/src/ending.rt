//! A run with seats, drained.
ghost use Rattle.std.specs.Prelude.{◌≡◌, ◌≤◌, Err, IfErr, IfOk, length};
ghost use Rattle.sj_check.specs.Held.{file_in as held};
ghost use Rattle.sj_lane.specs.Told.{Rose};
ghost use Rattle.sj_lang.specs.FileView.{file_of};
ghost use Rattle.sj_seat_end.specs.Told.{IsAfterRun, IsAtEnd};
ghost use Rattle.sj_seat_run.specs.Refusals.{IsRefusedOver};
ghost use Rattle.sj_seat_run.specs.Seats.{HasSameSeats, seats_by};

use sj_base::NoMemory;
use sj_check::Accepted;
use sj_lane::Links;
use sj_seat_run::{Play, SeatedRefusal, run_seated};
use sj_seats::SeatedWorld;
use sj_work::Gate;
use std::alloc::Global;
use std::thread::Threads;

/// How a run with seats ended: its world, in which nothing is left to do, and the codes of the parties
/// that have one.
#[derive(Drop)]
pub struct SeatedEnd<C> {
    pub world: SeatedWorld,
    pub codes: Vec<Option<C>>,
}

/// Runs a file as `run_seated` does (sj_seat_run). Once all codes are over what is left to do is done.
/// `told_of` has what the world reports then.
///
/// Without memory, or at a fault of the links, the codes are lost.
pub fn run_to_end<R: Threads + Sync, L: Links, G: Gate, C: Play + Send + Drop>(
    rt: &R,
    alloc: Global,
    accepted: &Accepted,
    codes: Vec<Option<C>>,
    texts: usize,
    looks: u32,
    links: &mut L,
    gate: &G,
) -> Result<SeatedEnd<C>, SeatedRefusal>
    // A quiet world of the file, whose history leads to it with exactly the calls that it tells.
    // Those parties have a seat in it that have a code.
    ensures end { IfOk result (λ e. IsAtEnd (file_of (held accepted.now)) (seats_by codes.items)
        e.world) }
    ensures codes { IfOk result (λ e. HasSameSeats (length (file_of (held accepted.now)).parties)
        codes.items e.codes.items) }

    // Its history begins with the joined logs of the run. So nothing that a code did is lost.
    ensures logged { IfOk result (λ e. IsAfterRun L.Out.OutLane L.In.InLane L.joined
        (file_of (held accepted.now)) looks (L.tells links.old) (seats_by codes.items) e.world) }

    // Why there is none, as for the run itself.
    ensures link_fault { result ≡ Err SeatedRefusal.LinkFault → Rose (L.faults links.old) (L.faults links.new) }
    ensures cause { IfErr result (IsRefusedOver L.Out.OutLane L.In.InLane L.joined
        (file_of (held accepted.now)) looks (L.tells links.old) (seats_by codes.items)) }
    ensures tells { L.tells links.new ≡ L.tells links.old }
    ensures faults { L.faults links.old ≤ L.faults links.new }
{
    let run = match run_seated(rt, alloc, accepted, codes, texts, looks, links, gate) {
        Ok(run) => run,
        Err(refusal) => return Err(refusal),
    };
    let mut world = run.world;
    let codes = run.codes;
    match world.drain() {
        Ok(()) => {}
        Err(NoMemory) => return Err(SeatedRefusal::NoMemory),
    }
    // That the file is accepted is in the clause `end`.
    let _ = accepted.file();
    Ok(SeatedEnd { world, codes })
}
