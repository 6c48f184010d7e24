//! Parties that a builder's own code plays, each with a test.
#![tactic(auto)]

mod busy;
mod clumsy;
mod first;
mod greeter;
mod leaver;
mod openers;
mod runs;
mod seller;
mod talkers;

pub use busy::Busy;
pub use clumsy::Clumsy;
pub use first::Firsts;
pub use greeter::{Greeter, run_greeter};
pub use leaver::Leaver;
pub use openers::{Client, Server};
pub use runs::{RunRefusal, run_codes};
pub use seller::Seller;
pub use talkers::{Customer, Talker};
