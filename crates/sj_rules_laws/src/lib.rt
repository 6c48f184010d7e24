//! Laws of the core: what it stands for in the plain world.
#![tactic(auto)]

mod drains;
mod joined;
mod laws;
mod notes;
mod runs;
mod samples;

pub use drains::{
    clocks_count_events, core_runs_are_short, each_core_run_drains, each_drain_ends_at_the_end,
};
pub use joined::{a_history_is_one_run, joined_logs_are_a_core_run, no_worker_is_unfit};
pub use laws::{
    a_drain_is_one_list_of_events, a_quiet_world_is_settled, kept_worlds_stand_for_plain_ones,
    nothing_is_ever_unfit, opens_come_from_parties, plain_worlds_are_lawful,
    the_rules_see_each_act, the_start_stands_for_the_plain_one,
};
pub use notes::{a_history_is_tied_to_its_plain_run, a_history_tells_what_was_passed};
pub use runs::{
    a_held_end_has_a_front, a_quiet_core_run_is_at_the_end, core_runs_have_few_acts,
    each_cache_has_what_was_not_taken, each_core_run_stands_for_a_plain_run,
    each_end_lies_in_one_place, each_front_fits, each_history_is_a_core_run,
    each_number_is_within_its_limit, each_party_acts_unless_halted, nothing_is_awaited_at_the_end,
};
pub use samples::{handovers_are_logged_so, openings_are_logged_so};
