//! Laws of the plain world: the order in which parties act doesn't matter,
//! and an end has one holder.
#![tactic(auto)]

mod laws;
mod runs;
mod samples;

pub use laws::{
    a_closed_end_is_bound_nowhere, a_party_stays_ready, acts_commute, acts_keep_ends_unshared,
    acts_use_bound_ends, an_end_has_one_holder, an_end_on_its_way_is_bound_nowhere,
    claims_never_grow, each_run_goes_on_to_the_end, ends_are_unshared_at_the_start,
    lists_are_those_of_the_acts, nobody_takes_more_than_was_sent, ready_parties_can_act,
    settled_runs_meet, steps_name_bound_ends, taken_is_a_front_of_sent, the_end_is_settled,
    what_acts_is_ready, what_leads_an_end_leads_what_it_stands_for,
};
pub use runs::{
    a_delegated_end_is_bound_nowhere_until_it_is_taken, a_front_of_a_run_is_a_run,
    a_party_stays_ready_over_acts_of_others, an_end_has_one_holder_in_every_run,
    an_end_is_bound_nowhere_from_its_close_on, each_end_has_its_session,
    nothing_is_opened_without_a_request, runs_lead_to_unshared_worlds,
    sessions_are_accepted_in_order,
};
pub use samples::{
    agencies_end_so, handovers_end_so, loop_counts_are_clamped, numbers_wrap, openings_end_so,
    opposite_orders_block, short_sessions_end_so, widths_end_so,
};
