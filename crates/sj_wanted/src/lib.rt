//! What may stand at a place of a text: the tokens with which it has no fault there.
#![tactic(auto)]

mod table;
mod trial;

pub use table::{SHOWN, TOKENS, put_wanted};
pub use trial::{MOST_FRONT, MOST_TOKEN, goes_on, may_stand, trials};
