//! Code that asks for anything, and looks at each answer.

use crate::deed::Deed;
use crate::dice::Dice;
use crate::picks::pick;
use crate::rules::rule_of;
use crate::sizes::Sizes;
use crate::why::Why;
use sj_seat::{Guard, HeldEnd, SeatRefusal};
use sj_seat_run::{Answer, Ask, Outcome, Play};
use std::alloc::Global;

/// What a code asked for, and what became of it.
#[derive(Clone, Copy)]
pub(crate) struct Asked {
    pub deed: Deed,
    pub answer: Answer,
}

// What the code asked for last, the rule that refuses it, and how many calls were made before it.
#[derive(Clone, Copy)]
struct Last {
    deed: Deed,
    rule: Option<SeatRefusal>,
    calls: u32,
}

/// Random code. It keeps all that it asked for, in order.
#[derive(Drop)]
pub(crate) struct Wild {
    alloc: Global,
    dice: Dice,
    sizes: Sizes,
    /// How much it still asks for, where it isn't answered that it waits.
    left: u32,
    /// How often it may still be answered so.
    patience: u32,
    last: Option<Last>,
    /// The ends that the party had before that.
    held: Vec<HeldEnd>,
    pub log: Vec<Asked>,
    pub bad: Option<Why>,
}

impl Wild {
    pub fn new(alloc: Global, dice: Dice, sizes: Sizes, left: u32, patience: u32) -> Wild {
        Wild {
            alloc,
            dice,
            sizes,
            left,
            patience,
            last: None,
            held: Vec::new(alloc),
            log: Vec::new(alloc),
            bad: None,
        }
    }

    // Whether the party holds the same ends at the same places as before the last call.
    fn holds_the_same(&self, seat: Guard<'_>) -> bool {
        if seat.ends.len() != self.held.len() {
            return false;
        }
        let mut at = 0usize;
        for held in seat.ends {
            match self.held.get(at) {
                Some(old) if old.end == held.end && old.place == held.place => {}
                _ => return false,
            }
            at = at.saturating_add(1);
        }
        true
    }

    // What is bad of the answer, if anything.
    fn judge(&self, seat: Guard<'_>, last: Last, answer: Answer) -> Option<Why> {
        match answer {
            // A look is no call, and changes nothing.
            Ok(Outcome::Ready(_)) => {
                if last.rule.is_some() {
                    return Some(Why::Rule);
                }
                if seat.calls != last.calls || !self.holds_the_same(seat) {
                    return Some(Why::Seat);
                }
            }
            Ok(_) => {
                if last.rule.is_some() {
                    return Some(Why::Rule);
                }
                if seat.calls != last.calls.saturating_add(1) {
                    return Some(Why::Seat);
                }
            }
            Err(refusal) => {
                if !is_due(last.rule, refusal) {
                    return Some(Why::Rule);
                }
                if seat.calls != last.calls || !self.holds_the_same(seat) {
                    return Some(Why::Seat);
                }
            }
        }
        None
    }

    // Keeps the answer.
    fn hear(&mut self, seat: Guard<'_>, answer: Answer) {
        let Some(last) = self.last else {
            self.bad = Some(Why::Answer);
            return;
        };
        if self.bad.is_none() {
            self.bad = self.judge(seat, last, answer);
        }
        let deed = last.deed;
        if self.log.push(Asked { deed, answer }).is_err() {
            self.bad = Some(Why::NoMemory);
        }
    }

    // It has so much less to ask for.
    fn tire(&mut self, answer: Answer) {
        if answer == Err(SeatRefusal::Waiting) {
            self.patience = self.patience.saturating_sub(1);
        } else {
            self.left = self.left.saturating_sub(1);
        }
    }

    // Asks for that.
    fn ask(&mut self, seat: Guard<'_>, deed: Deed) {
        self.last = Some(Last {
            deed,
            rule: rule_of(seat, deed),
            calls: seat.calls,
        });
        self.held.clear();
        if self.held.extend_from_slice(seat.ends).is_err() {
            self.bad = Some(Why::NoMemory);
        }
    }
}

// Whether that is why a call may be refused which that rule refuses, if any.
fn is_due(rule: Option<SeatRefusal>, refusal: SeatRefusal) -> bool {
    match rule {
        Some(rule) => rule == refusal,
        None => refusal == SeatRefusal::Waiting || refusal == SeatRefusal::AtLimit,
    }
}

impl Play for Wild {
    fn next(&mut self, seat: Guard<'_>, answer: Option<Answer>) -> Option<Ask> {
        if let Some(answer) = answer {
            self.hear(seat, answer);
            self.tire(answer);
        }
        if self.left == 0 || self.patience == 0 || self.bad.is_some() {
            return None;
        }
        let deed = pick(&mut self.dice, self.sizes, seat);
        self.ask(seat, deed);
        deed.ask(self.alloc)
    }
}
