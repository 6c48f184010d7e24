//! What the code asks for, and what it is answered.
#![tactic(auto, using(crate::proofs::StepsLemmas::no_step, crate::proofs::StepsLemmas::one_step, crate::proofs::StepsLemmas::steps_then))]

ghost use Rattle.sj_remote_seat.specs.Steps.{Steps};

use crate::code::Code;
use sj_base::NoMemory;
use sj_end::Note;
use sj_seat::{Answer, Ask, Guard, Outcome, SeatRefusal};
use std::alloc::Global;

/// So many calls that wait are kept in mind.
const MOST_WAITING: usize = 1_000;

/// What the code asks for, and what it was answered last.
#[derive(Drop)]
pub(crate) struct Asking {
    /// What isn't answered yet.
    ask: Option<Ask>,
    /// The answer to what it asked for before, and none at first.
    answer: Option<Answer>,
    /// It asks for nothing more.
    over: bool,
    /// What was answered as waiting, or as not there, since something came.
    waiting: Vec<Ask>,
}

impl Asking {
    /// The code before its first call.
    pub fn new(alloc: Global) -> Asking {
        Asking {
            ask: None,
            answer: None,
            over: false,
            waiting: Vec::new(alloc),
        }
    }

    /// Whether the code asks for nothing more.
    pub fn is_over(&self) -> bool {
        self.over
    }

    /// Asks the code. It isn't asked again before that is answered, nor once it is over.
    pub fn turn_to<C: Code>(&mut self, code: &mut C, seat: Guard<'_>)
        ensures { Steps C.Code.step code.old code.new }
    {
        if self.ask.is_none() && !self.over {
            self.ask = code.next(seat, self.answer);
            self.over = self.ask.is_none();
        }
    }

    /// The same, where the party's next act stands in its stream already, with that note.
    pub fn turn_again<C: Code>(&mut self, code: &mut C, seat: Guard<'_>, did: &Note)
        ensures { Steps C.Code.step code.old code.new }
    {
        if self.ask.is_none() && !self.over {
            self.ask = code.again(seat, self.answer, did);
            self.over = self.ask.is_none();
        }
    }

    /// Whether the code has yet to be told of an answer.
    pub fn owes(&self) -> bool {
        self.ask.is_none() && !self.over
    }

    /// What the code asks for.
    pub fn asked(&self) -> Option<&Ask> {
        self.ask.as_ref()
    }

    /// What the code asked for is answered.
    pub fn answer(&mut self, answer: Answer) {
        self.answer = Some(answer);
        self.ask = None;
    }

    /// What the code asked for is answered, unless it knows already that nothing came. Answers whether
    /// it waits on.
    pub fn answer_once(&mut self, answer: Answer) -> Result<bool, NoMemory> {
        if !is_vain(answer) {
            self.answer(answer);
            return Ok(false);
        }
        if self.knows() {
            return Ok(true);
        }
        self.waiting.reserve(1)?;
        if let Some(ask) = self.ask.take() {
            self.waiting.push_reserved(ask);
        }
        self.answer(answer);
        Ok(false)
    }

    /// Whether that was answered so since something came, or so much was that no more is
    /// kept in mind.
    fn knows(&self) -> bool {
        let Some(ask) = &self.ask else {
            return false;
        };
        for known in &self.waiting {
            if is_same(known, ask) {
                return true;
            }
        }
        self.waiting.len() >= MOST_WAITING
    }

    /// Something came, so what waited may be done now.
    pub fn forget(&mut self) {
        self.waiting.clear();
    }
}

/// Whether nothing came that the code asked for.
fn is_vain(answer: Answer) -> bool {
    matches!(
        answer,
        Err(SeatRefusal::Waiting) | Ok(Outcome::Ready(false))
    )
}

/// Whether the code asks for the same.
fn is_same(these: &Ask, those: &Ask) -> bool {
    match (these, those) {
        (Ask::Step(a), Ask::Step(b)) => *a == *b,
        (Ask::Open(a), Ask::Open(b)) => *a == *b,
        (Ask::TakeAny(a), Ask::TakeAny(b)) => a.as_slice() == b.as_slice(),
        (Ask::Ready { end: a }, Ask::Ready { end: b }) => *a == *b,
        _ => false,
    }
}
