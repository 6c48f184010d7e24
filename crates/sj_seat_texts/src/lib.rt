//! The texts of a run in which code plays parties: those of the file, and those that code adds.
#![tactic(auto)]

mod copies;
mod named;
mod texts;

pub use named::named_file;
pub use texts::Texts;

#[cfg(test)]
mod tests;
