//! What the program does with its words, its input and its output.
#![tactic(auto)]

mod acts;
mod answers;
mod counts;
mod duals;
mod entries;
mod files;
mod forests;
mod forwards;
mod histories;
mod inputs;
mod laws;
mod plans;
mod plays;
mod replays;
mod runs;
mod sums;
mod talks;
mod top;

pub use laws::{the_table_gives_one_answer, the_table_has_an_answer};
pub use sj_text::NO_MEMORY;
pub use top::sj;
