//! What the code asks for, done as far as nothing waits.
#![tactic(auto, using(crate::proofs::StepsLemmas::no_step, crate::proofs::StepsLemmas::one_step, crate::proofs::StepsLemmas::steps_then))]

ghost use Rattle.sj_remote_seat.specs.Steps.{Steps};
ghost use Rattle.sj_seat_run.specs.Played.{Played};

use crate::asking::Asking;
use crate::code::Code;
use crate::stops::stays;
use sj_base::NoMemory;
use sj_lane::{InLane, OutLane};
use sj_seat::{Answer, Ask, Guest};
use sj_work::Gate;

/// Does what the code asks for once.
pub(crate) fn perform<O: OutLane, I: InLane, G: Gate>(
    guest: &mut Guest<'_, O, I, G>,
    ask: &Ask,
) -> Answer
    ensures { Played O.OutLane I.InLane guest.old guest.new }
{
    guest.ask(ask)
}

/// Does what the code asks for, until it asks again for a call that waits, or for nothing more; of
/// live code, until something is done.
fn ask_on<O: OutLane, I: InLane, G: Gate, C: Code>(
    guest: &mut Guest<'_, O, I, G>,
    asking: &mut Asking,
    code: &mut C,
) -> Result<(), NoMemory>
    ensures played { Played O.OutLane I.InLane guest.old guest.new }
    ensures steps { Steps C.Code.step code.old code.new }
{
    for _ in 0..u64::MAX {
        if stays(guest.worker().stop()) {
            return Ok(());
        }
        asking.turn_to(code, guest.guard());
        let Some(ask) = asking.asked() else {
            return Ok(());
        };
        let told = perform(guest, ask);
        let waits = asking.answer_once(told)?;
        if waits || (told.is_ok() && code.is_live()) {
            return Ok(());
        }
    }
    Ok(())
}

/// Takes what came, and then does what the code asks for, until it asks again for a call that
/// waits, or for nothing more; of live code, until something is done.
pub(crate) fn take_turn<O: OutLane, I: InLane, G: Gate, C: Code>(
    guest: &mut Guest<'_, O, I, G>,
    asking: &mut Asking,
    code: &mut C,
) -> Result<(), NoMemory>
    ensures played { Played O.OutLane I.InLane guest.old guest.new }
    ensures steps { Steps C.Code.step code.old code.new }
{
    asking.forget();
    if guest.attend(1).is_some() {
        return Ok(());
    }
    ask_on(guest, asking, code)
}
