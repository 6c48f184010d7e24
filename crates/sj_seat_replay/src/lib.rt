//! The log of a run with seats: put as text, and done again from its text.
#![tactic(auto)]

mod history;
mod refusal;
mod replay;

pub use history::put_history;
pub use refusal::SeatReplayRefusal;
pub use replay::replay_seated;
