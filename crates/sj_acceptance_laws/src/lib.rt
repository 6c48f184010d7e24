//! Laws of acceptance.
#![tactic(auto)]

mod laws;

pub use laws::{a_block_leads_where_its_tests_pass, a_file_is_accepted_where_it_has_no_fault};
