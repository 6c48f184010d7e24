//! Places as numbers in a table.
#![tactic(auto)]

mod builders;
mod comparisons;
mod leads;
mod table;

pub use table::{Spot, Table};
