//! Laws of the grammar of files: each text is read or has one first fault.
#![tactic(auto)]

mod laws;

pub use laws::{each_text_is_read, one_fault_a_file};
