//! Links between parties over streams of this machine's own address.
#![tactic(auto)]

mod carries;
mod faults;
mod grid;
mod in_lane;
mod links;
mod out_lane;
mod piece;
mod stream;
#[cfg(test)]
mod tests;

pub use in_lane::SocketIn;
pub use links::{SocketLinks, TcpIn, TcpOut};
pub use out_lane::SocketOut;
