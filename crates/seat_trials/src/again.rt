//! Code that makes the calls that were done before.

use crate::deed::Deed;
use crate::why::Why;
use crate::wild::Asked;
use sj_base::NoMemory;
use sj_seat::{Guard, SeatRefusal, Wish};
use sj_seat_run::{Answer, Ask, Outcome, Play};
use std::alloc::Global;

/// The calls that were done of all that a code asked for, in order.
pub(crate) fn done_of(alloc: Global, log: &[Asked]) -> Result<Vec<Asked>, NoMemory> {
    let mut done = Vec::new(alloc);
    for asked in log {
        if is_call(asked.answer) {
            done.push(made(*asked))?;
        }
    }
    Ok(done)
}

// Whether a call was done. To look whether a message is there is none.
fn is_call(answer: Answer) -> bool {
    match answer {
        Ok(Outcome::Ready(_)) => false,
        Ok(_) => true,
        Err(_) => false,
    }
}

// The call that was made: of a take from either of two ends the one from which it took.
fn made(asked: Asked) -> Asked {
    let answer = asked.answer;
    match (asked.deed, answer) {
        (Deed::Either(..), Ok(Outcome::Took { end, .. })) => Asked {
            deed: Deed::Step(Wish::Take { end }),
            answer,
        },
        _ => asked,
    }
}

/// Code that asks for one thing after another, again as long as it waits, and leaves where an answer
/// is another one.
#[derive(Drop)]
pub(crate) struct Again {
    alloc: Global,
    pub calls: Vec<Asked>,
    at: usize,
    other: bool,
}

impl Again {
    pub fn new(alloc: Global, calls: Vec<Asked>) -> Again {
        Again {
            alloc,
            calls,
            at: 0,
            other: false,
        }
    }

    /// What was bad, if anything, once it has left.
    pub fn verdict(&self) -> Option<Why> {
        if self.other || self.at != self.calls.len() {
            return Some(Why::Again);
        }
        None
    }

    // The call is answered.
    fn hear(&mut self, answer: Answer) {
        match self.calls.get(self.at) {
            Some(asked) if asked.answer == answer => self.at = self.at.saturating_add(1),
            _ => self.other = true,
        }
    }
}

impl Play for Again {
    fn next(&mut self, _seat: Guard<'_>, answer: Option<Answer>) -> Option<Ask> {
        match answer {
            None => {}
            Some(Err(SeatRefusal::Waiting)) => {}
            Some(answer) => self.hear(answer),
        }
        if self.other {
            return None;
        }
        match self.calls.get(self.at) {
            Some(asked) => asked.deed.ask(self.alloc),
            None => None,
        }
    }
}
