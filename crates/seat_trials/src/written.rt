//! Code that goes by the body that the file has for its party.

ghost use Rattle.std.specs.Prelude.{◌<◌, length};
ghost use Rattle.sj_acceptance.specs.Accepted.{IsAccepted};
ghost use Rattle.sj_lang.specs.FileView.{file_of};

use crate::deed::Deed;
use crate::why::Why;
use sj_base::{Msg, NoMemory};
use sj_lang::File;
use sj_machine::{Awaits, MAX_STEPS, Machine, Want};
use sj_seat::{Guard, OpenWish, SeatRefusal, Wish};
use sj_seat_run::{Answer, Ask, Outcome, Play};
use std::alloc::Global;

/// The program of a party, and how many steps the file's party does. A step without a message is no
/// call.
#[derive(Drop)]
pub(crate) struct Written {
    alloc: Global,
    machine: Machine,
    until: u32,
    pub locals: u32,
    pub bad: Option<Why>,
}

impl Written {
    /// The party of that number at the start of the file, which does so many steps.
    pub fn start(alloc: Global, file: &File, party: u16, until: u32) -> Result<Written, NoMemory>
        requires accepted { IsAccepted (file_of file.now) }
        requires party { party < length (file_of file.now).parties }
    {
        let machine = Machine::start(alloc, file, party)?;
        Ok(Written {
            alloc,
            machine,
            until,
            locals: 0,
            bad: None,
        })
    }

    /// What was bad, if anything, once it has left.
    pub fn verdict(&self) -> Option<Why> {
        if self.bad.is_none() && self.machine.steps() != self.until {
            return Some(Why::Steps);
        }
        self.bad
    }

    // Whether the file's party does no further step.
    fn is_over(&self) -> bool {
        self.machine.steps() >= self.until
    }

    // Its call was done. Answers whether it goes on.
    fn go_on(&mut self, outcome: Outcome) -> bool {
        if self.is_over() || self.machine.steps() >= MAX_STEPS {
            self.bad = Some(Why::Steps);
            return false;
        }
        match (self.machine.wants(), outcome) {
            (Want::Send { .. }, Outcome::Done) => self.machine.sent(),
            (Want::Delegate { .. }, Outcome::Done) => self.machine.sent(),
            (Want::Close { .. }, Outcome::Done) => self.machine.closed(),
            (Want::Take { .. }, Outcome::Took { msg, .. }) => return self.take(msg),
            (Want::Request { .. }, Outcome::Opened { end }) => self.machine.opened(end),
            (Want::Accept { .. }, Outcome::Opened { end }) => self.machine.opened(end),
            _ => {
                self.bad = Some(Why::Answer);
                return false;
            }
        }
        true
    }

    // It took the message, which must fit.
    fn take(&mut self, msg: Msg) -> bool {
        if self.machine.steps() >= MAX_STEPS || !self.machine.fits(&msg) {
            self.bad = Some(Why::Answer);
            return false;
        }
        self.machine.took(msg);
        true
    }

    // Its call was refused. Answers whether it asks again: for what comes at last in the plain world.
    fn ask_again(&mut self, refusal: SeatRefusal) -> bool {
        let waits = refusal == SeatRefusal::Waiting;
        if self.is_over() {
            if !waits && refusal != SeatRefusal::AtLimit {
                self.bad = Some(Why::Answer);
            }
            return false;
        }
        if !waits {
            self.bad = Some(Why::Answer);
        }
        waits
    }

    // Does all steps without a message that are next.
    fn do_locals(&mut self) {
        for _ in 0..MAX_STEPS {
            if self.machine.steps() >= MAX_STEPS || self.machine.wants() != Want::Local {
                return;
            }
            self.machine.local();
            self.locals = self.locals.saturating_add(1);
        }
    }

    // What its next step asks for.
    fn deed(&self) -> Option<Deed> {
        if self.machine.steps() >= MAX_STEPS {
            return None;
        }
        match self.machine.wants() {
            Want::Send { end, msg } => Some(Deed::Step(Wish::Send { end, msg })),
            Want::Delegate { end, sent } => Some(Deed::Step(Wish::Delegate {
                carrier: end,
                end: sent,
            })),
            Want::Take {
                end,
                awaits: Awaits::Session(_),
            } => Some(Deed::Step(Wish::TakeEnd { end })),
            Want::Take { end, .. } => Some(Deed::Step(Wish::Take { end })),
            Want::Close { end } => Some(Deed::Step(Wish::Close { end })),
            Want::Request { protocol, to } => Some(Deed::Open(OpenWish::Request {
                party: to,
                protocol,
            })),
            Want::Accept { protocol, from } => Some(Deed::Open(OpenWish::Accept {
                party: from,
                protocol,
            })),
            _ => None,
        }
    }
}

impl Play for Written {
    fn next(&mut self, _seat: Guard<'_>, answer: Option<Answer>) -> Option<Ask> {
        let goes_on = match answer {
            None => true,
            Some(Ok(outcome)) => self.go_on(outcome),
            Some(Err(refusal)) => self.ask_again(refusal),
        };
        if !goes_on {
            return None;
        }
        self.do_locals();
        match self.deed() {
            Some(deed) => deed.ask(self.alloc),
            None => None,
        }
    }
}
