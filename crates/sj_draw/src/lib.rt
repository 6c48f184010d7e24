//! A picture of a run, from the lines of a transcript or a log.
#![tactic(auto)]

mod arrows;
mod chart;
mod laws;
mod layout;
mod lines;
mod marks;
mod openings;
mod picture;
mod pieces;
mod run;
mod style;
mod texts;
mod words;

pub use laws::{each_delivery_is_drawn_once, no_picture_outgrows_its_lines};
pub use run::draw;
pub use texts::{DrawRefusal, draw_lines};
