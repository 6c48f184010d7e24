//! The words of the command line, read with `clap`.
#![tactic(auto)]

mod counts;
mod line;
mod parts;
mod readers;
mod tasks;

pub use counts::USUAL_LOOKS;
pub use readers::task_in;
pub use tasks::Task;

#[cfg(test)]
mod tests;
