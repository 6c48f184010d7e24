//! Tests of sj_seat on small files.
#![tactic(auto)]

#[cfg(test)]
mod seat_tests;
