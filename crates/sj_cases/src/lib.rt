//! Cases of the program: what it must write, and with which status, for words and files, over links
//! of every kind. And the links that the tests need.
#![tactic(auto)]

mod failing_links;
mod forged_links;
mod odd_links;

pub use failing_links::FailsOnce;
pub use forged_links::Forged;
pub use odd_links::Odd;

#[cfg(test)]
mod big_tests;
#[cfg(test)]
mod calls;
#[cfg(test)]
mod core_tests;
#[cfg(test)]
mod cut_tests;
#[cfg(test)]
mod draft;
#[cfg(test)]
mod fault_tests;
#[cfg(test)]
mod files;
#[cfg(test)]
mod generated_tests;
#[cfg(test)]
mod history_tests;
#[cfg(test)]
mod limit_tests;
#[cfg(test)]
mod long_files;
#[cfg(test)]
mod merge_tests;
#[cfg(test)]
mod replay_log_tests;
#[cfg(test)]
mod size_tests;
#[cfg(test)]
mod talk_tests;
#[cfg(test)]
mod thread_tests;
#[cfg(test)]
mod transcripts;
#[cfg(test)]
mod unfit_tests;
#[cfg(test)]
mod worlds;
