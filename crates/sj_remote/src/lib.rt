//! A party's talk with a stream server: what is sent, and replies as they come.
#![tactic(auto)]

mod answers;
mod conn;
mod hearing;
mod passwords;
mod refusal;
mod streams;
mod talk_refusal;
mod talks;

pub use answers::{read_added, read_streams};
pub use conn::Conn;
pub use passwords::put_auth;
pub use refusal::ConnRefusal;
pub use streams::{NoNumber, Streams};
pub use talk_refusal::TalkRefusal;

#[cfg(test)]
mod tests;
