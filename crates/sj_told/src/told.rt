//! What is reported of an end, and of a party.
use sj_semantics::{Passed, State};

/// All messages that an end sent, in order, and the parties that took the first of them.
#[derive(Drop)]
pub struct ToldEnd {
    pub sent: Vec<Passed>,
    pub takers: Vec<u16>,
}

/// How a party stands, and after how many steps.
#[derive(Clone, Copy, Debug, PartialEq, Eq)]
pub struct Stand {
    pub steps: u32,
    pub state: State,
}
