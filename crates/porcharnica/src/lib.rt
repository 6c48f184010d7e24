//! What a builder uses, by the name of one crate: files, their check, their runs and transcripts.
#![tactic(auto)]

pub use sj_base::{EndId, NoMemory};
pub use sj_check::{Accepted, CheckRefusal, CheckRule, check};
pub use sj_core::{ReplayRefusal, StepRefusal, World, first_nodes};
pub use sj_end::{CLOCK_END, Event, Frame, Line, Misfit};
pub use sj_lane::{InLane, Lanes, Links, MakeRefusal, OutLane, PopRefusal, PushRefusal, RingLinks};
pub use sj_lang::{File, ProtocolDef, meets};
pub use sj_node::{DeliverRefusal, Halt, Node};
pub use sj_party::{Fault, ParseRefusal, Rule, parse_file};
pub use sj_plain::Plain;
pub use sj_print::{print_transcript, print_verdict};
pub use sj_run::{RunRefusal, run_parties};
pub use sj_semantics::Verdict;
pub use sj_work::{Gate, NoGate};
