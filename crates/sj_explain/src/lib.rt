//! Why a file is refused, how that is mended, and what an accepted file comes to.
#![tactic(auto)]

mod answers;
mod bounds;
mod connections;
mod context;
mod counts;
mod edits;
mod env;
mod expressions;
mod faults;
mod hints;
mod holders;
mod joins;
mod marks;
mod names;
mod near;
mod openings;
mod picture;
mod pieces;
mod places;
mod quotation;
mod reasons;
mod rules;
mod run;
mod scalars;
mod statements;
mod syntax;
mod waits;
mod walk;
mod warnings;
mod words;

pub use answers::{CheckAnswer, Looks};
pub use reasons::{Told, why};
pub use run::explain;
pub use sj_text::NO_MEMORY;
