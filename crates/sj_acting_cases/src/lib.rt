//! Tests of the crates that check files and play them: the table of places, the checker, the plain
//! world, ends, handovers, nodes and workers.
#![tactic(auto)]

#[cfg(test)]
mod check_tests;
#[cfg(test)]
mod end_tests;
#[cfg(test)]
mod handover_tests;
#[cfg(test)]
mod node_tests;
#[cfg(test)]
mod plain_tests;
#[cfg(test)]
mod table_tests;
#[cfg(test)]
mod work_tests;
