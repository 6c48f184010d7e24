//! Laws of the text of a log: what a run prints is read again.
#![tactic(auto)]

mod laws;

pub use laws::{
    a_file_and_its_log_are_parted_there, a_newline_behind_a_file_changes_nothing,
    the_history_of_a_run_is_legible, the_log_of_a_run_is_read_again,
};
