//! Expressions from tokens, and the laws of their grammar.
#![tactic(auto)]

mod laws;
mod operands;
mod parse;
mod signs;
mod taking;

pub use laws::{
    an_expression_ends_where_it_may, an_expression_is_read_in_one_way, expressions_are_what_is_due,
    faults_go_wrong, no_expression_has_a_fault,
};
pub use parse::parse_expression;
