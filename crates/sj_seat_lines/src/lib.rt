//! A party of a run that is played by lines: each is read, done or refused, and answered at once.
#![tactic(auto)]

mod form;
mod fronts;
mod laws;
mod lines;
mod names;
mod opens;
mod party;
mod reader;
mod replies;
mod settle;
mod starts;
mod steps;
mod words;

pub use form::{Form, form_in};
pub use laws::lines_are_refused_as_in_a_talk;
pub use lines::{Ended, Left, Lines};
pub use names::Name;
pub use opens::{Opens, accept_of, request_of};
pub use party::{Heard, Party};
pub use reader::{LineReader, Next};
pub use replies::{Reply, put_reply};
pub use starts::first_names;
pub use steps::{Step, step_of};
pub use words::Words;

#[cfg(test)]
mod tests;
