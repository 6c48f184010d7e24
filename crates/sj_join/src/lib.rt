//! The logs of a run at a stream server: read at one moment, joined, and put as text.
#![tactic(auto)]

mod joins;
mod logs;
mod now;
mod places;
mod refusal;
mod sources;
mod talk;
mod texts;
mod words;

pub use joins::join_texts;
pub use now::{Now, now_in};
pub use refusal::JoinRefusal;
pub use sources::{Found, find, put_source};
pub use talk::{drop_run, read_run, share_of, sign_in};
pub use texts::texts_of;
pub use words::{Asked, Task, asked_in};

#[cfg(test)]
mod tests;
