//! Text that is appended to, and may be cut short where memory is.
#![tactic(auto)]

mod pieces;
mod statuses;

pub use pieces::{put, put_int, put_number};
pub use statuses::{NO_MEMORY, WRITE_FAULT};

#[cfg(test)]
mod tests;
