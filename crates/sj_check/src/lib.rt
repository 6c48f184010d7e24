//! The linear checker.
#![tactic(auto)]

mod accepted;
mod checker;
mod ends;
mod env;
mod files;
mod flat;
mod joins;
mod kinds;
mod labels;
mod limits;
mod live;
mod moves;
mod name_lists;
mod openings;
mod places;
mod refusal;
mod rules;
mod statements;
mod tables;
mod uniqueness;
mod variables;
mod walk;

pub use accepted::Accepted;
pub use checker::check;
pub use ends::is_same_end;
pub use limits::is_within_limits;
pub use refusal::CheckRefusal;
pub use rules::CheckRule;
