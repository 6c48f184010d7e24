//! Laws of the generated file.
#![tactic(auto)]

mod laws;

pub use laws::{
    the_generated_file_ends_done, the_generated_file_is_accepted, the_generated_text_is_canonical,
    the_generated_text_stands_for_the_file,
};
