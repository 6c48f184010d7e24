//! A party's node: its program, its records of ends, and what it has sent.
#![tactic(auto)]

mod acts;
mod arrivals;
mod calls;
mod carries;
mod delegations;
mod deliveries;
mod departures;
mod due;
mod halts;
mod handovers;
mod laws;
mod limits;
mod node;
mod numbers;
mod openings;
mod outs;
mod readers;
mod records;
mod refusal;
mod requests;
mod seats;
mod sends;
mod signals;
mod slots;
mod stands;
mod starts;
mod takes;
mod threads;

pub use laws::{
    acts_are_of_the_file, calls_are_rows, calls_halt_as_the_rules_say, heads_are_untaken,
    known_heads_are_taken_by_the_file, misfits_have_no_act, nodes_keep_their_play,
    nodes_play_the_file, nodes_that_act_agree, only_misfits_have_no_act, openings_are_rows,
    openings_halt_as_the_rules_say,
};
pub use node::Node;
pub use refusal::{DeliverRefusal, Halt};
pub use seats::Call;
pub use threads::node_crosses;
