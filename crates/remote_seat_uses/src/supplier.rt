//! A seat that takes over a customer whom an agency hands on.

use sj_base::{EndId, Msg};
use sj_seat::{Answer, Ask, Guard, Outcome, SeatRefusal, Wish};
use sj_seat_run::Play;
use std::thread;
use std::time::Duration;

/// What the supplier does next.
#[derive(Clone, Copy, Debug, PartialEq, Eq)]
enum Stage {
    /// It takes from the agency whether there is a customer.
    Listens(EndId),
    /// It takes the customer's end.
    TakesOver(EndId),
    /// It closes the agency's end, and has the customer's.
    LetsGo(EndId, Option<EndId>),
    /// It takes the customer's street.
    TakesStreet(EndId),
    /// It says when it comes.
    Answers(EndId),
    Closes(EndId),
    Over,
}

/// The supplier of examples/agency.sj.
#[derive(Drop)]
pub(crate) struct Supplier<'a> {
    rt: &'a HostRuntime,
    /// The text that says when it comes.
    date: u32,
    /// So many milliseconds it takes for each call.
    pause: u64,
    stage: Option<Stage>,
    /// The label by which the agency hands a customer on.
    accept: u16,
}

impl<'a> Supplier<'a> {
    pub fn new(rt: &'a HostRuntime, date: u32, accept: u16, pause: u64) -> Supplier<'a> {
        Supplier {
            rt,
            date,
            pause,
            stage: None,
            accept,
        }
    }

    /// What it does after that, once it is done.
    fn after(&self, stage: Stage, outcome: Outcome) -> Stage {
        let msg = match outcome {
            Outcome::Took { msg, .. } => Some(msg),
            Outcome::Done | Outcome::Opened { .. } | Outcome::Ready(_) => None,
        };
        match (stage, msg) {
            (Stage::Listens(desk), Some(Msg::Label(label))) if label == self.accept => {
                Stage::TakesOver(desk)
            }
            (Stage::Listens(desk), Some(_)) => Stage::LetsGo(desk, None),
            (Stage::TakesOver(desk), Some(Msg::Sess { sess, side, .. })) => {
                Stage::LetsGo(desk, Some(EndId { sess, side }))
            }
            (Stage::LetsGo(_, Some(end)), _) => Stage::TakesStreet(end),
            (Stage::TakesStreet(end), Some(_)) => Stage::Answers(end),
            (Stage::Answers(end), _) => Stage::Closes(end),
            _ => Stage::Over,
        }
    }
}

/// The call of a stage.
fn call_of(stage: Stage, date: u32) -> Option<Wish> {
    match stage {
        Stage::Listens(end) | Stage::TakesStreet(end) => Some(Wish::Take { end }),
        Stage::TakesOver(end) => Some(Wish::TakeEnd { end }),
        Stage::LetsGo(end, _) | Stage::Closes(end) => Some(Wish::Close { end }),
        Stage::Answers(end) => Some(Wish::Send {
            end,
            msg: Msg::Text(date),
        }),
        Stage::Over => None,
    }
}

impl Play for Supplier<'_> {
    fn next(&mut self, seat: Guard<'_>, answer: Option<Answer>) -> Option<Ask> {
        thread::sleep(self.rt, Duration::from_millis(self.pause));
        let stage = match (self.stage, answer) {
            // at first it has the agency's end alone
            (None, _) => Stage::Listens(seat.ends.get(0)?.end),
            (Some(stage), Some(Ok(outcome))) => self.after(stage, outcome),
            // nothing came yet: it asks again
            (Some(stage), Some(Err(SeatRefusal::Waiting))) => stage,
            _ => Stage::Over,
        };
        self.stage = Some(stage);
        let wish = call_of(stage, self.date)?;
        Some(Ask::Step(wish))
    }
}
