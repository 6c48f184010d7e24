//! Sessions that parties offer to another, until it accepts them.
#![tactic(auto)]

mod offers;

pub use offers::{is_offering, offer, offered_by, withdraw};
