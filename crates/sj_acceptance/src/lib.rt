//! Which files are accepted: definitions alone.
#![tactic(auto)]
