//! The handover of an end from one party to another, call by call.
#![tactic(auto)]

mod deferrals;
mod fitness;
mod installation;
mod keeper;
mod resends;
mod taker;

pub use deferrals::Tally;
pub use fitness::fits_install;
pub use installation::{install, taken_over, worked};
pub use keeper::{acked, crossed, signal};
pub use resends::{Usable, passive};
pub use taker::claim;
