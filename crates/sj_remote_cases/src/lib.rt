//! Tests of sj_remote_run over a server in memory.
#![tactic(auto)]

#[cfg(test)]
mod answer_tests;
#[cfg(test)]
mod ends;
#[cfg(test)]
mod link;
#[cfg(test)]
mod play_tests;
#[cfg(test)]
mod process;
#[cfg(test)]
mod refusal_tests;
#[cfg(test)]
mod replies;
#[cfg(test)]
mod server;
#[cfg(test)]
mod standing;
#[cfg(test)]
mod words;
