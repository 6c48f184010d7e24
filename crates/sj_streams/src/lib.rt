//! What a party asks a stream server, as commands, and what it answers, as parts of replies.
#![tactic(auto)]

mod answers;
mod batch;
mod commands;
mod keys;
mod laws;
mod misread;
mod parts;
mod replies;
mod reply;

pub use answers::{Refusal, read_number, read_text, read_well, refusal_of, refused};
pub use batch::{add_frames, begin_batch, frames_for, lines_of};
pub use commands::{put_add, put_get, put_read, put_share};
pub use keys::{file_key, log_key};
pub use laws::{what_came_is_spelt_so, what_is_spelt_comes};
pub use misread::Misread;
pub use replies::{Came, read_came};
pub use reply::Reply;

#[cfg(test)]
mod tests;
