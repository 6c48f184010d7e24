//! What every program does: the top call over the words that stand after the program's name.
#![tactic(auto)]

mod entry;
mod words;

pub use entry::enter;
pub use words::Caller;

#[cfg(test)]
mod tests;
