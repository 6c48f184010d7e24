//! Laws of what a history reports of the end of a run in which parties of an accepted file are
//! played by code of their own.
#![tactic(auto)]

mod laws;

pub use laws::{
    a_code_stands_at_its_first_open_end, a_quiet_seated_history_tells_its_end,
    a_seated_history_tells_its_world, seats_are_judged_by_their_stands, seats_stand_so,
    stands_tell_the_transcript,
};
