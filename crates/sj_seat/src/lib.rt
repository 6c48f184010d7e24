//! A party of a run that is played by a builder's own code.
#![tactic(auto)]

mod again;
mod ask;
mod attend;
mod calls;
mod deeds;
mod ends;
mod firsts;
mod fronts;
mod guard;
mod guards;
mod guest;
mod holdings;
mod kinds;
mod laws;
mod openings;
mod picks;
mod places;
mod refusal;
mod sessions;
mod starts;
mod turns;
mod wish;

pub use ask::{Answer, Ask, Outcome};
pub use ends::{HeldEnd, go_on, hold};
pub use firsts::{first_ends, text_count};
pub use guard::Guard;
pub use guest::Guest;
pub use holdings::Holdings;
pub use kinds::seat_table;
pub use laws::the_rules_are_the_guard;
pub use openings::{Opening, Openings, party_openings};
pub use places::carries_places;
pub use refusal::SeatRefusal;
pub use wish::{OpenWish, OpenedSession, Wish};
