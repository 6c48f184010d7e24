//! All that a party that code plays can do before it must wait for others.
#![tactic(auto, using(crate::proofs::StepsLemmas::no_step, crate::proofs::StepsLemmas::one_step, crate::proofs::StepsLemmas::steps_then))]

ghost use Rattle.std.specs.Prelude.{◌≡◌, IfOk, IsTrue, None, Ok, false, true};
ghost use Rattle.sj_remote_seat.specs.Outcomes.{StandsBy, is_at_limit};
ghost use Rattle.sj_remote_seat.specs.Steps.{Steps};
ghost use Rattle.sj_remote_seat.specs.Turns.{Turns};
ghost use Rattle.sj_work.specs.Worked.{kept_stop};

use crate::asking::Asking;
use crate::code::Code;
use crate::home::go_home;
use crate::seat::Seat;
use crate::stops::stays;
use crate::turns::take_turn;
use sj_remote_run::{Outcome, PlayRefusal, stands};
use sj_work::Stop;
use std::alloc::Global;

/// Turns until the code waits for others, or is over; of live code, until something is done. What the
/// party sends to itself comes meanwhile.
fn take_turns<'a, C: Code>(
    alloc: Global,
    seat: Seat<'a>,
    asking: &mut Asking,
    code: &mut C,
) -> Result<Seat<'a>, PlayRefusal>
    ensures turns { IfOk result (λ new. Turns seat.entry new) }
    ensures steps { Steps C.Code.step code.old code.new }
{
    let mut going = seat;
    for _ in 0..u64::MAX {
        take_turn(&mut going, asking, code)?;
        if stays(going.worker().stop()) {
            return Ok(going);
        }
        let (next, carried) = go_home(alloc, going)?;
        going = next;
        if !carried || (code.is_live() && asking.owes()) {
            return Ok(going);
        }
    }
    // No memory holds the entries of so many turns.
    Err(PlayRefusal::NoMemory)
}

/// How a party stands whose worker stopped so, by whether it has nothing left to do.
fn outcome_of(stop: Option<Stop>, finished: bool) -> Result<Outcome, PlayRefusal>
    ensures ended { result ≡ Ok Outcome.Ended → IsTrue finished }
    ensures waits { result ≡ Ok Outcome.Waits →
        (kept_stop stop ≡ None) × (is_at_limit stop ≡ false) }
    ensures limit { result ≡ Ok Outcome.Limit → is_at_limit stop ≡ true }
{
    match stop {
        None => stands(Stop::Idle, finished),
        Some(stop) => stands(stop, finished),
    }
}

/// All that the party can do before it must wait for others. Answers how it stands. It has ended
/// where its code is over and it has nothing left to do.
pub(crate) fn play_batch<'a, C: Code>(
    alloc: Global,
    seat: Seat<'a>,
    asking: &mut Asking,
    code: &mut C,
) -> Result<(Seat<'a>, Outcome), PlayRefusal>
    ensures turns { IfOk result (λ r. Turns seat.entry r.0) }
    ensures steps { Steps C.Code.step code.old code.new }
    ensures stands { IfOk result (λ r. StandsBy r.1 r.0) }
{
    let seat = take_turns(alloc, seat, asking, code)?;
    let finished = asking.is_over() && seat.worker().node().finished();
    let outcome = outcome_of(seat.worker().stop(), finished)?;
    Ok((seat, outcome))
}
