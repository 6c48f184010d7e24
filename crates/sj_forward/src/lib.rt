//! Handover by forwarding: old holders stay and pass messages on.
#![tactic(auto)]

mod acts;
mod arrivals;
mod drains;
mod ends;
mod forward;
mod forwarder;
mod forwarder_world;
mod frame;
mod lanes;
mod offers;
mod records;
mod refusal;
mod slot;
mod starts;

pub use forward::ForwardWorld;
pub use refusal::{Turn, TurnRefusal};
