//! Code that plays one of the two parties.

use crate::clocks::{nanos_since, now};
use crate::file::{Kind, MESSAGES, goes_out};
use sj_base::{EndId, Msg};
use sj_seat::{Guard, SeatRefusal, Wish};
use sj_seat_run::{Answer, Ask, Outcome, Play};
use std::time::{Clock, Instant};

/// Code that sends and takes numbers, in turns of a loop. It looks at the clock before its first
/// call and after its last message.
#[derive(Drop)]
pub(crate) struct Player<'a, R> {
    clock: &'a R,
    kind: Kind,
    /// Whether it is the party that says how often the loop turns.
    first: bool,
    /// How many turns are left to begin.
    turns: u32,
    /// How many messages of this turn are done, where it has begun.
    done: Option<u32>,
    began: Option<Instant>,
    /// How many messages it took or sent.
    pub count: u64,
    /// How long it played.
    pub nanos: u64,
}

impl<'a, R: Clock> Player<'a, R> {
    pub fn new(clock: &'a R, kind: Kind, first: bool, turns: u32) -> Player<'a, R> {
        Player {
            clock,
            kind,
            first,
            turns,
            done: None,
            began: None,
            count: 0,
            nanos: 0,
        }
    }

    /// Its end.
    fn end(&self) -> EndId {
        EndId {
            sess: 0,
            side: if self.first { 0 } else { 1 },
        }
    }

    /// What it wants now.
    fn wish(&self) -> Wish {
        let end = self.end();
        match self.done {
            None if self.first => Wish::Send {
                end,
                msg: Msg::More(self.turns > 0),
            },
            Some(number) if goes_out(self.kind, number) == self.first => Wish::Send {
                end,
                msg: Msg::Int(i64::from(number)),
            },
            _ => Wish::Take { end },
        }
    }

    /// What it wanted is done. Answers whether it goes on.
    fn go_on(&mut self, outcome: Outcome) -> bool {
        let Some(number) = self.done else {
            let over = matches!(
                outcome,
                Outcome::Took {
                    msg: Msg::More(false),
                    ..
                }
            );
            let ends = over || (self.first && self.turns == 0);
            self.turns = self.turns.saturating_sub(1);
            self.done = Some(0);
            return !ends;
        };
        self.count = self.count.saturating_add(1);
        let next = number.saturating_add(1);
        self.done = if next < MESSAGES { Some(next) } else { None };
        true
    }
}

impl<R: Clock> Play for Player<'_, R> {
    fn next(&mut self, _seat: Guard<'_>, answer: Option<Answer>) -> Option<Ask> {
        let goes_on = match answer {
            None => {
                self.began = now(self.clock);
                true
            }
            Some(Ok(outcome)) => self.go_on(outcome),
            Some(Err(SeatRefusal::Waiting)) => true,
            Some(Err(_)) => false,
        };
        if goes_on {
            return Some(Ask::Step(self.wish()));
        }
        self.nanos = nanos_since(self.clock, &self.began);
        None
    }
}
