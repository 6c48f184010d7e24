//! How the end is reported as a whole.
ghost use Rattle.std.specs.Prelude.{◌≡◌, []};
ghost use Rattle.std.specs.List.{list_all, list_any};
ghost use Rattle.sj_semantics.specs.State.{has_ended, is_at_limit, opened_in, verdict_of};
ghost use Rattle.sj_semantics.specs.World.{World};
ghost use Rattle.sj_told.specs.Told.{AreStands, verdict_by};

use crate::told::Stand;
use sj_semantics::{State, Verdict};

/// The verdict where parties stand so and no session was opened: long where one is at a limit, else
/// done where each has ended, else blocked.
pub fn verdict_told(stands: &[Stand]) -> Verdict
    ensures seen { result ≡ verdict_by stands.now }
    ensures world { (w : World) → opened_in w ≡ [] → AreStands w stands.now → result ≡ verdict_of w }
{
    verdict_by(stands)
}

/// The verdict by how parties stand alone, whoever plays them: long where one is at a limit, else
/// done where each has ended, else blocked.
pub fn verdict_by(stands: &[Stand]) -> Verdict
    ensures { result ≡ verdict_by stands.now }
{
    if some_at_limit(stands) {
        Verdict::Long
    } else if all_ended(stands) {
        Verdict::Done
    } else {
        Verdict::Blocked
    }
}

fn some_at_limit(stands: &[Stand]) -> bool
    ensures { result ≡ list_any (λ s. is_at_limit s.state) stands.now }
{
    stands.iter().any(|s| is_at_limit(s.state))
}

fn all_ended(stands: &[Stand]) -> bool
    ensures { result ≡ list_all (λ s. has_ended s.state) stands.now }
{
    stands.iter().all(|s| has_ended(s.state))
}

fn is_at_limit(state: State) -> bool
    ensures { result ≡ is_at_limit state }
{
    matches!(state, State::AtLimit(_))
}

fn has_ended(state: State) -> bool
    ensures { result ≡ has_ended state }
{
    matches!(state, State::Ended)
}
