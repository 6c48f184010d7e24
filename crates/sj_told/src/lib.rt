//! What the lines of a history report of the end of their file, where no session was opened. This
//! is what was sent and taken on each end, and how each party stands.
#![tactic(auto)]

mod counts;
mod ends;
mod told;
mod verdicts;

pub use counts::messages_told;
pub use ends::ends_told;
pub use told::{Stand, ToldEnd};
pub use verdicts::{verdict_by, verdict_told};
