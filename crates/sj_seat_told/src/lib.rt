//! What a world with seats that leaves nothing to do reports of the end of its run: how each party
//! stands, which sessions were opened, the verdict, and the transcript.
#![tactic(auto)]

mod laws;
mod openings;
mod sessions;
mod standing;
mod told;
mod waits;

pub use laws::a_quiet_world_is_so_under_any_names;
pub use sessions::opened;
pub use standing::{stands, verdict};
pub use told::put_transcript;
