//! A party played line by line among the others of its file.
#![tactic(auto)]

mod acts;
mod copies;
mod form;
mod front;
mod laws;
mod names;
mod output;
mod places;
mod play;
mod refusals;
mod said;
mod start;
mod talk;

pub use form::{Form, Value, form_in};
pub use laws::{
    lines_are_moves, lines_fit_their_places, talks_serve_the_others, talks_stay_balanced,
};
pub use output::talk_lines;
pub use said::Said;
pub use talk::Talk;
