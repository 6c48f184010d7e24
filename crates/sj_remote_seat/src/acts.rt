//! An act of the party's stream, done again by what its code asks for.
#![tactic(auto, using(crate::proofs::StepsLemmas::no_step, crate::proofs::StepsLemmas::one_step, crate::proofs::StepsLemmas::steps_then))]

ghost use Rattle.std.specs.Prelude.{◌≡◌, ◌∷◌, [], IsTrue, OnOk};
ghost use Rattle.sj_node.specs.Node.{log_of};
ghost use Rattle.sj_remote_seat.specs.Steps.{Steps};
ghost use Rattle.sj_seat.specs.Views.{node_of};
ghost use Rattle.sj_seat_run.specs.Played.{Played};

use crate::SeatPlayRefusal;
use crate::asking::Asking;
use crate::code::Code;
use crate::turns::perform;
use sj_base::Msg;
use sj_core::is_the_line;
use sj_end::{Entry, Line, Note};
use sj_lane::{InLane, OutLane};
use sj_node::Node;
use sj_remote_run::PlayRefusal;
use sj_seat::{Answer, Ask, Guard, Guest, OpenWish, Outcome, SeatRefusal, Wish};
use sj_work::{Gate, Stop};

/// So often in a row the code may ask for something else than the act that comes next.
const MOST_ASKED: u32 = 1_000;

/// Whether the entry is all that the node noted.
pub(crate) fn is_only(node: &Node, entry: &Entry) -> bool
    ensures { IsTrue result → log_of node.now ≡ entry.now ∷ [] }
{
    let log = node.log();
    if log.len() != 1 {
        return false;
    }
    let party = node.party();
    let made = Some(Line {
        party,
        entry: log[0],
    });
    let entry = *entry;
    is_the_line(&made, &Line { party, entry })
}

/// Whether the note may be that of the step. What a take gets stands in the note alone.
fn is_step_noted(wish: Wish, note: Note) -> bool {
    match (wish, note) {
        (Wish::Send { end, msg }, Note::Sent { end: on, msg: sent }) => end == on && msg == sent,
        (
            Wish::Delegate { carrier, end },
            Note::Sent {
                end: on,
                msg: Msg::Sess { sess, side, .. },
            },
        ) => carrier == on && end.sess == sess && end.side == side,
        (Wish::Take { end } | Wish::TakeEnd { end }, Note::Took { end: on, .. }) => end == on,
        (Wish::Close { end }, Note::Shut { end: on }) => end == on,
        _ => false,
    }
}

/// Whether the note may be that of the opening. Its protocol stands in no note.
fn is_opening_noted(wish: OpenWish, note: Note) -> bool {
    match (wish, note) {
        (OpenWish::Request { party, .. }, Note::Request { to, .. }) => party == to,
        (OpenWish::Accept { party, .. }, Note::Accept { from, .. }) => party == from,
        _ => false,
    }
}

/// Whether the note may be that of what the code asks for.
fn is_noted(ask: &Ask, note: Note) -> bool {
    match ask {
        Ask::Step(wish) => is_step_noted(*wish, note),
        Ask::Open(wish) => is_opening_noted(*wish, note),
        Ask::TakeAny(ends) => match note {
            Note::Took { end, .. } => ends.contains(&end),
            _ => false,
        },
        // No act.
        Ask::Ready { .. } => false,
    }
}

/// Does what the code asks for, which the entry notes.
fn repeat<O: OutLane, I: InLane, G: Gate>(
    guest: &mut Guest<'_, O, I, G>,
    asking: &mut Asking,
    entry: &Entry,
) -> Result<(), SeatPlayRefusal>
    ensures played { OnOk result (Played O.OutLane I.InLane guest.old guest.new) }
    ensures only { OnOk result (log_of (node_of guest.new) ≡ entry.now ∷ []) }
{
    let Some(ask) = asking.asked() else {
        return Err(SeatPlayRefusal::OtherCode);
    };
    let told = perform(guest, ask);
    asking.answer(told);
    match told {
        Ok(_) if is_only(guest.worker().node(), entry) => Ok(()),
        Err(SeatRefusal::NoMemory | SeatRefusal::Stopped(Stop::NoMemory)) => {
            Err(SeatPlayRefusal::Party(PlayRefusal::NoMemory))
        }
        _ => Err(SeatPlayRefusal::Party(PlayRefusal::LogFault)),
    }
}

/// The first rule that refuses what the code asks for, if one does.
fn refusal_of(guard: Guard<'_>, ask: &Ask) -> Option<SeatRefusal> {
    match ask {
        Ask::Step(wish) => guard.check(*wish).err(),
        Ask::Open(wish) => guard.open(*wish).err(),
        Ask::TakeAny(ends) => {
            for &end in ends {
                if let Err(refusal) = guard.take(end) {
                    return Some(refusal);
                }
            }
            None
        }
        Ask::Ready { end } => guard.ready(*end).err(),
    }
}

/// What the code is answered that asks for something else than the act which comes next, and isn't
/// refused: whether a message is there, or that it waits.
fn answer_beside(node: &Node, ask: &Ask) -> Answer {
    match ask {
        Ask::Ready { end } => Ok(Outcome::Ready(node.head(*end).is_some())),
        _ => Err(SeatRefusal::Waiting),
    }
}

/// Asks the code until it asks for what the entry notes, and does that. Anything else is answered by
/// its refusal, by whether a message is there, or as waiting.
pub(crate) fn ask_for<O: OutLane, I: InLane, G: Gate, C: Code>(
    guest: &mut Guest<'_, O, I, G>,
    asking: &mut Asking,
    code: &mut C,
    entry: &Entry,
) -> Result<(), SeatPlayRefusal>
    ensures played { OnOk result (Played O.OutLane I.InLane guest.old guest.new) }
    ensures only { OnOk result (log_of (node_of guest.new) ≡ entry.now ∷ []) }
    ensures steps { Steps C.Code.step code.old code.new }
{
    let mut asked: u32 = 0;
    for _ in 0..u64::MAX {
        asking.turn_again(code, guest.guard(), &entry.note);
        let Some(ask) = asking.asked() else {
            return Err(SeatPlayRefusal::OtherCode);
        };
        if is_noted(ask, entry.note) {
            return repeat(guest, asking, entry);
        }
        match refusal_of(guest.guard(), ask) {
            Some(refusal) => asking.answer(Err(refusal)),
            None => {
                if asked >= MOST_ASKED {
                    return Err(SeatPlayRefusal::OtherCode);
                }
                asked += 1;
                let told = answer_beside(guest.worker().node(), ask);
                asking.answer(told);
            }
        }
    }
    Err(SeatPlayRefusal::OtherCode)
}
