//! Tokens, the grammar of files and the first fault, as definitions; small readers of bytes.
#![tactic(auto)]

mod bytes;
mod limits;
mod refusal;
mod tokens;

pub use bytes::{
    Class, are_digits, are_printable, is, is_in, is_largest_number, is_letter_byte, is_word_text,
};
pub use limits::MOST_OPEN;
pub use refusal::ParseRefusal;
pub use tokens::{Fault, Rule, Token, What};
