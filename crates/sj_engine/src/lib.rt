//! A party's lanes as bytes, what it does until it must wait, and entries of its log done again, for
//! parties as processes of their own.
#![tactic(auto)]

mod home;
mod in_lane;
mod out_lane;
mod redo;
mod refusal;
mod rounds;
mod turns;

pub use home::carry_home;
pub use in_lane::ByteIn;
pub use out_lane::ByteOut;
pub use redo::{redo_act, redo_delivery};
pub use refusal::{RedoRefusal, SpellRefusal};
pub use rounds::batches;
pub use turns::batch;

#[cfg(test)]
mod tests;
