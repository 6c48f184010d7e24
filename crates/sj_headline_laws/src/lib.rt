//! Laws of accepted files: sessions stay balanced, what is taken fits, and nothing
//! is left where all is done.
#![tactic(auto)]

mod laws;

pub use laws::{
    a_file_that_opens_a_session_is_accepted, a_file_with_a_narrower_selection_is_accepted,
    a_taken_end_stands_for_the_body, an_accepted_end_stands_for_the_body,
    done_leaves_nothing_untaken, done_takes_all_that_was_sent, no_program_is_stuck,
    sessions_stay_balanced, settled_runs_have_the_headline, steps_fit_the_places,
    the_greeting_is_accepted, the_next_message_fits, the_next_message_has_a_place_after_it,
};
