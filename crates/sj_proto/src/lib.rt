//! Tokens and protocols from bytes.
#![tactic(auto)]

mod bodies;
mod bytes;
mod choices;
mod laws;
mod naming;
mod parse;
mod printing;
mod printing_laws;
mod protocols;
mod reserved;
mod scan;
mod shapes;
mod tokens;

pub use bodies::body;
pub use choices::take_first;
pub use laws::{
    a_fault_comes_again, first_faults_go_wrong, no_list_in_front_has_a_fault,
    no_protocol_has_a_fault, one_fault_a_text, one_list_in_front, one_protocol_a_text,
    only_the_end_is_the_end, the_end_comes_again, what_goes_wrong_is_the_first_fault,
    what_is_ahead_was_ahead,
};
pub use naming::take_name;
pub use printing::{print_protocol, put_word};
pub use printing_laws::{printed_text_is_read_again, printed_text_stands};
pub use protocols::{parse_protocol, parse_protocols};
pub use reserved::is_name_text;
pub use scan::{digits_number, goes_on_after_zero};
pub use sj_grammar::{Fault, ParseRefusal, Rule, Token, What};
pub use tokens::Tokens;
