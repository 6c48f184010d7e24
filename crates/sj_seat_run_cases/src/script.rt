//! Code that asks for one thing after another.

use sj_base::{EndId, Msg};
use sj_seat::{Guard, OpenWish, SeatRefusal, Wish};
use sj_seat_run::{Answer, Ask, Outcome, Play};
use std::alloc::Global;

/// One thing that a script asks for.
#[derive(Clone, Copy)]
pub(crate) enum Line {
    Step(Wish),
    Open(OpenWish),
    /// A take from the first of these two.
    Either(EndId, EndId),
    /// Whether something is there.
    Ready(EndId),
}

/// Code that asks for each thing of a list, in order, again as long as it waits, and keeps what it
/// took, opened and saw. It skips what a rule refuses, and keeps the refusal.
#[derive(Drop)]
pub(crate) struct Script {
    pub alloc: Global,
    pub lines: Vec<Line>,
    pub took: Vec<Msg>,
    pub opened: Vec<EndId>,
    pub looked: Vec<bool>,
    pub refused: Vec<SeatRefusal>,
    pub done: usize,
    /// How often it asks again.
    pub patience: u32,
}

impl Script {
    /// What it asks for now.
    fn ask(&self) -> Option<Ask> {
        match self.lines.get(self.done).copied() {
            Some(Line::Step(wish)) => Some(Ask::Step(wish)),
            Some(Line::Open(wish)) => Some(Ask::Open(wish)),
            Some(Line::Either(first, second)) => self.either(first, second),
            Some(Line::Ready(end)) => Some(Ask::Ready { end }),
            None => None,
        }
    }

    fn either(&self, first: EndId, second: EndId) -> Option<Ask> {
        let mut ends = Vec::new(self.alloc);
        if ends.extend_from_slice(&[first, second]).is_err() {
            return None;
        }
        Some(Ask::TakeAny(ends))
    }

    /// Keeps what became of it. Answers whether there is room.
    fn keep(&mut self, outcome: Outcome) -> bool {
        self.done = self.done.saturating_add(1);
        match outcome {
            Outcome::Done => true,
            Outcome::Took { msg, .. } => self.took.push(msg).is_ok(),
            Outcome::Opened { end } => self.opened.push(end).is_ok(),
            Outcome::Ready(there) => self.looked.push(there).is_ok(),
        }
    }

    /// Answers whether it goes on after the refusal.
    fn meet(&mut self, refusal: SeatRefusal) -> bool {
        if refusal != SeatRefusal::Waiting {
            self.done = self.done.saturating_add(1);
            return self.refused.push(refusal).is_ok();
        }
        if self.patience == 0 {
            return false;
        }
        self.patience -= 1;
        true
    }
}

impl Play for Script {
    fn next(&mut self, _seat: Guard<'_>, answer: Option<Answer>) -> Option<Ask> {
        let goes_on = match answer {
            None => true,
            Some(Ok(outcome)) => self.keep(outcome),
            Some(Err(refusal)) => self.meet(refusal),
        };
        if goes_on { self.ask() } else { None }
    }
}
