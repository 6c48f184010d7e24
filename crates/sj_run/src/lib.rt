//! A file run by its parties over any links, each on a thread of its own or all on a pool of a few.
#![tactic(auto)]

mod crews;
mod handed;
mod laws;
mod refusal;
mod remains;
mod rounds;
mod runs;
mod stops;
mod teams;

pub use laws::{calls_compose, order_is_no_damage};
pub use refusal::RunRefusal;
pub use runs::run_parties;
