//! Callers of porcharnica, as a builder of message-passing systems writes them.
#![tactic(auto)]

mod by_hand;
mod deques;
mod files;
mod protocols;
mod refusal;
mod runs;

pub use by_hand::{Acted, act_on, carry};
pub use deques::{DequeIn, DequeLinks, DequeOut};
pub use files::{Ending, accepted_in, ending_of, transcript_in};
pub use protocols::{TalkRefusal, can_talk};
pub use refusal::TextRefusal;
pub use runs::{Ran, run_file};

#[cfg(test)]
mod tests;
