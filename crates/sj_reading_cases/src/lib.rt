//! Tests of the crates that read and print: protocols, expressions, files, logs, transcripts, frames,
//! pictures and the generated file.
#![tactic(auto)]

#[cfg(test)]
mod draw_tests;
#[cfg(test)]
mod expr_tests;
#[cfg(test)]
mod generator_tests;
#[cfg(test)]
mod lang_tests;
#[cfg(test)]
mod log_tests;
#[cfg(test)]
mod party_tests;
#[cfg(test)]
mod print_tests;
#[cfg(test)]
mod proto_tests;
#[cfg(test)]
mod wire_tests;
