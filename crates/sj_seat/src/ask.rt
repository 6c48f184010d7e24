//! What a builder's code asks for, of every kind, in one call.
ghost use Rattle.std.specs.Prelude.{◌≡◌, IfErr, IfOk, List, None, OnErr, OnOk, length};
ghost use Rattle.sj_lang.specs.FileAt.{FileAt};
ghost use Rattle.sj_node.specs.Reading.{parties_of};
ghost use Rattle.sj_seat.specs.Asking.{Holds, IsAskRefused, IsFirst, Tells, calls_made, first_ask_rule, outcome_of};
ghost use Rattle.sj_seat.specs.Counted.{Counted};
ghost use Rattle.sj_seat.specs.Views.{node_of, worker_of};
ghost use Rattle.sj_seat.specs.Went.{Keeps, Rests, SameBounds, Went};
ghost use Rattle.sj_seat_laws.specs.Calls as calls;

use crate::{Guest, OpenWish, SeatRefusal, Wish};
use sj_base::{EndId, Msg};
use sj_lane::{InLane, OutLane};
use sj_work::Gate;

/// What a builder's code asks for.
#[derive(Debug, Drop)]
pub enum Ask {
    /// A step on the ends that the party holds.
    Step(Wish),
    /// A session with another party.
    Open(OpenWish),
    /// The next message of the first of these ends on which one is there, which is no end.
    TakeAny(Vec<EndId>),
    /// Whether a message is there for that end. What came is delivered first, where none is there yet.
    Ready { end: EndId },
}

/// What became of a call that is done.
#[derive(Clone, Copy, Debug, PartialEq, Eq)]
pub enum Outcome {
    /// A send, a delegation or a close.
    Done,
    /// The message was taken on that end. An end that was taken is a session message.
    Took { end: EndId, msg: Msg },
    /// The session is open, and this is the party's own end of it.
    Opened { end: EndId },
    /// Whether a message is there.
    Ready(bool),
}

/// What became of what a code asked for; or why nothing of it happened.
pub type Answer = Result<Outcome, SeatRefusal>;

/// What became of a step that took that message, if any.
fn outcome_of(wish: Wish, taken: Option<Msg>) -> Outcome
    ensures { result ≡ outcome_of wish taken }
{
    match (wish, taken) {
        (Wish::Take { end }, Some(msg)) => Outcome::Took { end, msg },
        (Wish::TakeEnd { end }, Some(msg)) => Outcome::Took { end, msg },
        _ => Outcome::Done,
    }
}

impl<O: OutLane, I: InLane, G: Gate> Guest<'_, O, I, G> {
    /// Does what the code asks for. It waits as long as there are looks. What is refused leaves the
    /// ends and the count of calls as they were.
    pub fn ask(&mut self, ask: &Ask) -> Answer
        // The call is made, or none is, whatever the code calls later. To look for a message is none.
        ensures ok { IfOk result (λ o. (file : FileAt) (rest : List calls.Call) →
            length file.parties ≡ parties_of (node_of self.old) →
            Went O.OutLane I.InLane file (calls_made ask.now o rest) rest self.old self.new) }
        ensures err { (file : FileAt) (rest : List calls.Call) →
            length file.parties ≡ parties_of (node_of self.old) → OnErr result
            (Went O.OutLane I.InLane file rest rest self.old self.new) }
        ensures rests { OnErr result (Rests self.old self.new) }
        ensures keeps { Keeps (node_of self.old) (node_of self.new) }
        ensures bounds { SameBounds self.old self.new }
        ensures counts { Counted O.OutLane I.InLane (worker_of self.old) (worker_of self.new) }

        // What it answers is what the last act did, or whether a message is there. An end that was
        // opened is held, and a look leaves what is held. A take from several ends is from the first
        // on which a message is there.
        ensures tells { IfOk result (Tells (worker_of self.new) ask.now) }
        ensures holds { IfOk result (λ o. Holds ask.now o self.old self.new) }
        ensures first { IfOk result (λ o. IsFirst O.OutLane I.InLane ask.now o self.old self.new) }

        // No rule refuses what is done; what isn't done has its cause.
        ensures allowed { OnOk result (first_ask_rule self.old ask.now ≡ None) }
        ensures cause { IfErr result (λ r. IsAskRefused ask.now r self.old self.new) }
    {
        match ask {
            Ask::Step(wish) => match self.perform(*wish) {
                Ok(taken) => Ok(outcome_of(*wish, taken)),
                Err(refusal) => Err(refusal),
            },
            Ask::Open(wish) => match self.open(*wish) {
                Ok(end) => Ok(Outcome::Opened { end }),
                Err(refusal) => Err(refusal),
            },
            Ask::TakeAny(ends) => match self.take_any(ends) {
                Ok((end, msg)) => Ok(Outcome::Took { end, msg }),
                Err(refusal) => Err(refusal),
            },
            Ask::Ready { end } => match self.ready(*end) {
                Ok(there) => Ok(Outcome::Ready(there)),
                Err(refusal) => Err(refusal),
            },
        }
    }
}
