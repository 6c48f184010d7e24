//! How the parties of a world with seats stand that leaves nothing to do, and the verdict.
ghost use Rattle.std.specs.Prelude.{◌≡◌, ◌<◌, IfOk, if◌then◌else◌, map};
ghost use Rattle.std.specs.List.{list_all};
ghost use Rattle.sj_lang.specs.FileAt.{FileAt};
ghost use Rattle.sj_seat_laws.specs.SeatsWorld.{SeatsWorld};
ghost use Rattle.sj_seat_told.specs.Quiet.{IsEndOf, IsQuietOf};
ghost use Rattle.sj_seat_told.specs.Standing.{AreNodeStands, IsNodeStand};
ghost use Rattle.sj_seat_told_laws.specs.SeatsOpened.{unnamed};
ghost use Rattle.sj_seat_told_laws.specs.SeatsStands.{AreSeatsStands, seats_verdict, verdict_with};
ghost use Rattle.sj_seats.specs.Seated.{party_count};
ghost use Rattle.sj_semantics.specs.State.{is_accepted, opened_in};
ghost use Rattle.sj_semantics.specs.declared.Verdict.TheVariants.{Blocked, Done};

use crate::waits::state_by_ends;
use sj_base::NoMemory;
use sj_core::stand_of;
use sj_seats::SeatedWorld;
use sj_semantics::{Opened, Verdict};
use sj_told::{Stand, verdict_by};
use std::alloc::Global;

/// How each party stands, in order: one that goes by the file by its steps and its next one, and one
/// that is played by code, which makes no further call, by its calls and the ends that it holds.
/// Where nothing is left to do, the party stands so at the end of the run.
pub fn stands(alloc: Global, world: &SeatedWorld) -> Result<Vec<Stand>, NoMemory>
    ensures seen { IfOk result (λ v. AreNodeStands world.now v.items) }
    ensures stands { IfOk result (λ v. (file : FileAt) (t : SeatsWorld) →
        IsQuietOf file world.now → IsEndOf file world.now t → AreSeatsStands t v.items) }
{
    let mut stands = Vec::new(alloc);
    for party in 0..world.parties() {
        stands.push(stand_at(world, party as u16))?;
    }
    Ok(stands)
}

fn stand_at(world: &SeatedWorld, party: u16) -> Stand
    requires there { party < party_count world.now }
    ensures { IsNodeStand world.now party result }
{
    match world.ends(party) {
        Some(ends) => {
            let steps = world.calls(party);
            let state = state_by_ends(world.table(), ends, steps);
            Stand { steps, state }
        }
        None => stand_of(world.node(party)),
    }
}

/// The verdict where parties stand so and these sessions were opened: long where one is at a limit,
/// else done where each has ended and each session was accepted, else blocked. It is that of the run.
pub fn verdict(stands: &[Stand], opened: &[Opened]) -> Verdict
    ensures seen { result ≡ verdict_with stands.now opened.now }
    ensures world { (t : SeatsWorld) → AreSeatsStands t stands.now →
        opened.now ≡ map unnamed (opened_in t.world) → result ≡ seats_verdict t }
{
    judged(stands, opened)
}

fn judged(stands: &[Stand], opened: &[Opened]) -> Verdict
    ensures { result ≡ verdict_with stands.now opened.now }
{
    match verdict_by(stands) {
        Verdict::Done => done_if(all_accepted(opened)),
        Verdict::Blocked => Verdict::Blocked,
        Verdict::Long => Verdict::Long,
    }
}

fn done_if(accepted: bool) -> Verdict
    ensures { result ≡ (if accepted then Done else Blocked) }
{
    if accepted {
        Verdict::Done
    } else {
        Verdict::Blocked
    }
}

fn all_accepted(opened: &[Opened]) -> bool
    ensures { result ≡ list_all is_accepted opened.now }
{
    opened.iter().all(|o| o.second.is_some())
}
