//! What was bad, and how often.

use sj_seat_run::SeatedRefusal;

/// What was bad of a run.
#[derive(Clone, Copy, Debug, PartialEq, Eq)]
pub(crate) enum Why {
    Run(SeatedRefusal),
    /// Out of memory, outside the run.
    NoMemory,
    /// Code that goes by the file was answered what the file's party isn't.
    Answer,
    /// Code that goes by the file went less far than the file's party, or farther.
    Steps,
    /// The transcript is another one.
    Transcript,
    /// What the rules let happen was refused by a rule, or what a rule refuses by another one, or
    /// not at all.
    Rule,
    /// A refused call changed the ends or the count of calls, or a call that was done isn't counted.
    Seat,
    /// The history tells other calls than the code made.
    History,
    /// The same calls, made again, have other answers.
    Again,
    /// The same calls leave other ends.
    Ends,
    /// In the plain world a line has another answer.
    Line,
}

impl Why {
    /// The same in a word.
    pub fn word(self) -> &'static str {
        match self {
            Why::Run(SeatedRefusal::LacksPlace) => "place",
            Why::Run(SeatedRefusal::LinkFault) => "fault",
            Why::Run(SeatedRefusal::Damaged(_)) => "damaged",
            Why::Run(SeatedRefusal::Unfit) => "unfit",
            Why::Run(SeatedRefusal::NoMemory) => "memory",
            Why::NoMemory => "memory",
            Why::Answer => "answer",
            Why::Steps => "steps",
            Why::Transcript => "transcript",
            Why::Rule => "rule",
            Why::Seat => "seat",
            Why::History => "history",
            Why::Again => "again",
            Why::Ends => "ends",
            Why::Line => "line",
        }
    }
}

/// How many runs were tried, and how many were bad.
#[derive(Clone, Copy)]
pub(crate) struct Tally {
    pub tried: u32,
    pub bad: u32,
    /// The number of the first run that was bad, and why.
    pub first: Option<(u32, Why)>,
    /// How many calls were done, and how many were refused.
    pub done: u64,
    pub refused: u64,
    /// How many runs had the very transcript of the file.
    pub plain: u32,
}

impl Tally {
    pub fn new() -> Tally {
        Tally {
            tried: 0,
            bad: 0,
            first: None,
            done: 0,
            refused: 0,
            plain: 0,
        }
    }

    /// Counts a run, and what was bad of it, if anything.
    pub fn count(&mut self, bad: Option<Why>) {
        if let Some(why) = bad {
            if self.first.is_none() {
                self.first = Some((self.tried, why));
            }
            self.bad = self.bad.saturating_add(1);
        }
        self.tried = self.tried.saturating_add(1);
    }
}
