//! Tests of sj_forest on whole files.
#![tactic(auto)]

#[cfg(test)]
mod forest_tests;
