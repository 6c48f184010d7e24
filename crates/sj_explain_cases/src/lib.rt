//! Tests of sj_explain on small files.
#![tactic(auto)]

#[cfg(test)]
mod expression_slips;
#[cfg(test)]
mod file_slips;
#[cfg(test)]
mod item_slips;
#[cfg(test)]
mod reason_tests;
#[cfg(test)]
mod slips;
#[cfg(test)]
mod statement_slips;
