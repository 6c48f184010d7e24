//! Statements and files from tokens, their canonical text, and the laws of their grammar.
#![tactic(auto)]

mod connects;
mod files;
mod first_words;
mod laws;
mod parties;
mod parts;
mod printing;
mod printing_expressions;
mod printing_laws;
mod printing_parts;
mod printing_statements;
mod scalars;
mod shapes;
mod simple;
mod statements;

pub use files::parse_file;
pub use laws::{
    a_file_goes_on_up_to_there, files_are_what_is_due, first_faults_go_wrong,
    no_file_goes_on_there, no_file_has_a_fault, no_statement_has_a_fault, one_file_a_text,
    statements_are_read_in_one_way, statements_are_what_is_due, what_goes_wrong_is_the_first_fault,
};
pub use printing::{print_file, print_protocol_line};
pub use printing_laws::{
    printed_file_is_read_again, printed_file_stands, printed_text_comes_again,
};
pub use sj_proto::{Fault, ParseRefusal, Rule};
