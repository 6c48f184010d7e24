//! Definitions tried on files whose counts of deliveries are known; each clause computes.
//!
//! - `deliveries_are_counted_so`: a drain of each, and how many deliveries every drain of it has.
//! - `a_file_begins_with_an_act`: nothing is in a lane before.

ghost use Rattle.std.specs.Prelude.{◌≡◌, false, true};
ghost use Rattle.sj_forward_laws.specs.Samples.{Passes};
ghost use Rattle.sj_forward_rules.specs.Ready.{has_step};
ghost use Rattle.sj_forward_rules.specs.Start.{forward_start};
ghost use Rattle.sj_rules.specs.Party.{play_of};
ghost use Rattle.sj_rules.specs.World.{Act, Deliver};
ghost use Rattle.sj_rules_laws.specs.OpeningCoreSamples.{opened_and_moved};
ghost use Rattle.sj_semantics_laws.specs.HandoverSamples.{both_moved, delegation};
ghost use Rattle.sj_semantics_laws.specs.OpeningSamples.{accepted};

/// Where an end is delegated between messages each drain has seven deliveries, and where both ends
/// are delegated at once nine. A session that is opened takes one more than its messages. Where its
/// first end is delegated before it is used there are five.
pub fn deliveries_are_counted_so()
    ensures one { Passes delegation 7 }
    ensures both { Passes both_moved 9 }
    ensures opened { Passes accepted 2 }
    ensures moved { Passes opened_and_moved 5 }
{}

/// At the start no delivery is a step, and the first party's act is one.
pub fn a_file_begins_with_an_act()
    ensures delivery { has_step (play_of delegation) (forward_start delegation) 0 (Deliver 1)
        ≡ false }
    ensures act { has_step (play_of delegation) (forward_start delegation) 0 Act ≡ true }
{}
