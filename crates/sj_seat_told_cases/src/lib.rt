//! Tests of sj_seat_told on small files.
#![tactic(auto)]

#[cfg(test)]
mod told_tests;
