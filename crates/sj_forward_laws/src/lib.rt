//! Laws of handover by forwarding: what it stands for in the plain world.
#![tactic(auto)]

mod drains;
mod runs;
mod samples;

pub use drains::{a_drain_is_one_list_of_events, each_drain_ends_at_the_end, each_run_drains};
pub use runs::{
    a_party_acts_where_it_is_ready, a_quiet_run_is_at_the_end, each_front_fits,
    each_run_stands_for_a_plain_run, has_step_tells_the_steps, runs_are_short,
    what_is_on_its_way_is_untaken,
};
pub use samples::{a_file_begins_with_an_act, deliveries_are_counted_so};
