//! How a course of acts stands: each party, and all of them.
ghost use Rattle.std.specs.List.{list_all, list_any};
ghost use Rattle.std.specs.Prelude.{◌≡◌, ◌<◌, ◌≤◌, Some, length, option_map, slice_get, unwrap_or};
ghost use Rattle.sj_lang.specs.Limits.{limits};
ghost use Rattle.sj_semantics.specs.State.{has_ended, is_accepted, is_at_limit, state_of, states_of, verdict_of};
ghost use Rattle.sj_semantics.specs.Wants.{want_of};
ghost use Rattle.sj_semantics.specs.declared.Want.TheVariants.{Ended};

use crate::course::Course;
use crate::progress::state_wanting;
use sj_semantics::{Opened, State, Verdict, Want};

impl Course {
    ghost use Rattle.sj_plain.specs.Course.{IsOrdered, world_in};

    /// The next step of the party.
    pub(crate) fn wants(&self, party: u16) -> Want
        requires there { party < length (world_in self.now).parties }
        ensures { option_map (λ g. unwrap_or (want_of g) Ended)
            (slice_get (world_in self.now).parties party) ≡ Some result }
    {
        let machine = &self.machines[party as usize];
        machine.wants()
    }

    /// How the party stands whose next step is this one.
    pub(crate) fn state_by(&self, party: u16, want: &Want) -> State
        requires there { party < length (world_in self.now).parties }
        requires wants { option_map (λ g. unwrap_or (want_of g) Ended)
            (slice_get (world_in self.now).parties party) ≡ Some want.now }
        requires ordered { IsOrdered self.now }
        ensures { result ≡ state_of (world_in self.now) party }
    {
        let machine = &self.machines[party as usize];
        state_wanting(&self.sessions, &self.opened, party, machine.steps(), want)
    }

    /// How the party stands.
    pub fn state(&self, party: u16) -> State
        requires there { party < length (world_in self.now).parties }
        requires ordered { IsOrdered self.now }
        ensures { result ≡ state_of (world_in self.now) party }
    {
        let want = self.wants(party);
        self.state_by(party, &want)
    }

    /// How the world stands as a whole: long where somebody is at a limit, else done where
    /// everybody has ended and each opened session was accepted, else blocked.
    pub fn verdict(&self) -> Verdict
        requires few { length (world_in self.now).parties ≤ limits.parties }
        requires ordered { IsOrdered self.now }
        ensures { result ≡ verdict_of (world_in self.now) }
    {
        if self.some_at_limit() {
            Verdict::Long
        } else if self.all_ended() && all_accepted(&self.opened) {
            Verdict::Done
        } else {
            Verdict::Blocked
        }
    }

    /// Whether a party is at a limit.
    fn some_at_limit(&self) -> bool
        requires few { length (world_in self.now).parties ≤ limits.parties }
        requires ordered { IsOrdered self.now }
        ensures { result ≡ list_any is_at_limit (states_of (world_in self.now)) }
    {
        for i in 0..self.machines.len() {
            if is_at_limit(self.state(i as u16)) {
                return true;
            }
        }
        false
    }

    /// Whether each party has ended.
    fn all_ended(&self) -> bool
        requires few { length (world_in self.now).parties ≤ limits.parties }
        requires ordered { IsOrdered self.now }
        ensures { result ≡ list_all has_ended (states_of (world_in self.now)) }
    {
        for i in 0..self.machines.len() {
            if !has_ended(self.state(i as u16)) {
                return false;
            }
        }
        true
    }
}

/// Whether a party that stands so is at a limit.
fn is_at_limit(state: State) -> bool
    ensures { result ≡ is_at_limit state }
{
    matches!(state, State::AtLimit(_))
}

/// Whether a party that stands so has ended.
fn has_ended(state: State) -> bool
    ensures { result ≡ has_ended state }
{
    matches!(state, State::Ended)
}

/// Whether each of the sessions was accepted.
fn all_accepted(opened: &[Opened]) -> bool
    ensures { result ≡ list_all is_accepted opened.now }
{
    for session in opened {
        if session.second.is_none() {
            return false;
        }
    }
    true
}
