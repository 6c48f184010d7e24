//! Tests of sj_forward on whole files.
#![tactic(auto)]

#[cfg(test)]
mod forward_tests;
