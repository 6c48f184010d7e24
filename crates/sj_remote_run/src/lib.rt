//! A party of a file, played over a stream server until there is a cause to stop.
#![tactic(auto)]

mod adding;
mod again;
mod catching;
mod causes;
mod entries;
mod events;
mod outcome;
mod play;
mod player;
mod posts;
mod refusal;
mod sharing;
mod taking;
mod turns;

pub use again::{do_again, lines_in, same_words};
pub use catching::{new_lanes, read_all};
pub use causes::spell_means;
pub use entries::batch_words;
pub use outcome::Outcome;
pub use play::{Play, play_party};
pub use player::{Player, stands};
pub use posts::{clear, push_all};
pub use refusal::PlayRefusal;
pub use sharing::{share, sign_in};
pub use turns::{add, exchange};
