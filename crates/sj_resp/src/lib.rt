//! A codec for the part of the protocol RESP, version 2, that a client of a stream server needs. It
//! puts commands into bytes, and reads tokens of replies from bytes.
#![tactic(auto)]

mod command;
mod decoder;
mod fronts;
mod laws;
mod numbers;
mod refusal;
mod token;

pub use command::{put_command, put_word};
pub use decoder::TokenDecoder;
pub use laws::{
    a_command_is_read, a_length_is_read, a_refusal_stays, a_token_stays, bytes_are_read,
};
pub use refusal::RespRefusal;
pub use token::Token;

#[cfg(test)]
mod tests;
