//! The plain world: a file's parties and sessions, and one step of one party at a time.
#![tactic(auto)]

mod ahead;
mod course;
mod ends;
mod halt;
mod moves;
mod plain;
mod progress;
mod sessions;
mod shared_file;
mod uses;
mod verdicts;

pub use ahead::Ahead;
pub use course::Course;
pub use ends::Session;
pub use halt::Halt;
pub use plain::Plain;
pub use shared_file::SharedFile;
pub use uses::{delegate_on, hops, next_message, send_on, take_end_on, take_on};
