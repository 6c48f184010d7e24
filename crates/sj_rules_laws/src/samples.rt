//! Definitions tried on files whose histories are known; each clause computes.
//!
//! - `handovers_are_logged_so`, `openings_are_logged_so`: whole histories, with all clocks and
//!   notes, to where nothing is left to do, however caches are kept.

ghost use Rattle.sj_rules_laws.specs.CoreSamples.{IsLoggedSo, both_moved_lines, delegation_lines};
ghost use Rattle.sj_rules_laws.specs.MoreCoreSamples.{sends_later, sends_later_lines};
ghost use Rattle.sj_rules_laws.specs.OpeningCoreSamples.{accepted_lines, opened_and_moved, opened_and_moved_lines, unaccepted_lines};
ghost use Rattle.sj_rules_laws.specs.MovedTwiceSamples.{moved_twice, moved_twice_lines};
ghost use Rattle.sj_semantics_laws.specs.HandoverSamples.{both_moved, delegation};
ghost use Rattle.sj_semantics_laws.specs.OpeningSamples.{accepted, unaccepted};

/// A closed end is resent after a handover; nothing is resent between Signal and Give; Signals
/// cross. A Carry and a Signal wait for an end that is delegated once more.
pub fn handovers_are_logged_so()
    ensures delegation { IsLoggedSo delegation delegation_lines }
    ensures sends_later { IsLoggedSo sends_later sends_later_lines }
    ensures both_moved { IsLoggedSo both_moved both_moved_lines }
    ensures moved_twice { IsLoggedSo moved_twice moved_twice_lines }
{}

/// A session is opened, used and closed by its requester before the other party accepts it, or
/// where nobody accepts it. And its first end is delegated before its second one is accepted.
pub fn openings_are_logged_so()
    ensures accepted { IsLoggedSo accepted accepted_lines }
    ensures unaccepted { IsLoggedSo unaccepted unaccepted_lines }
    ensures moved { IsLoggedSo opened_and_moved opened_and_moved_lines }
{}
