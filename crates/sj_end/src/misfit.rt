//! A line that isn't the one that is due.
use crate::Line;

/// The first line of a log, by its number from 1 on, that isn't the one that is due at its place.
/// Also the one that is due there, where the event is a step at all.
#[derive(Clone, Copy, Debug, PartialEq, Eq)]
pub struct Misfit {
    pub number: u64,
    pub logged: Line,
    pub due: Option<Line>,
}
