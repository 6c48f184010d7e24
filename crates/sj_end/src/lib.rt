//! Ends of sessions as a party keeps them, what parties send each other, and what they note.
#![tactic(auto)]

mod end;
mod frames;
mod held;
mod limits;
mod misfit;
mod note;
mod once;
mod record;
mod room;

pub use end::{End, other_end};
pub use frames::{Body, Frame, Post};
pub use limits::{CLOCK_END, MAX_CONN};
pub use misfit::Misfit;
pub use note::{Entry, Event, Line, Note, note_of};
pub use record::{Closed, Deferred, Expected, Held, Parked, Signalled};
pub use room::Room;
