//! Laws of runs in which parties of an accepted file are played by code of their own.
#![tactic(auto)]

mod laws;

pub use laws::{
    a_call_is_its_row, a_frame_comes_whatever_the_program_is, a_log_tells_the_calls,
    a_quiet_seated_run_has_the_headline, each_front_fits_beside_seats,
    each_party_acts_beside_seats, each_seated_core_run_stands_for_a_plain_run,
    joined_logs_are_a_seated_core_run, no_worker_is_unfit_beside_seats,
    seats_keep_sessions_balanced, seats_play_so, seats_serve_the_others,
    settled_seated_runs_have_the_headline,
};
