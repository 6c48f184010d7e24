//! Tests of sj_seat_run on small files.
#![tactic(auto)]

#[cfg(test)]
mod run_tests;
#[cfg(test)]
mod script;
