//! The jobs, gathered in one list.
ghost use Rattle.std.specs.Prelude.{◌≡◌, ◌+◌, ◌-◌, ◌<◌, ◌≤◌, ◌++◌, [], All, length, map, vec_len, vec_capacity};
ghost use Rattle.std.specs.List.{flat_map};
ghost use Rattle.std.specs.List.Sorted.{IsPermutation};
ghost use Rattle.sj_steal.specs.Hands.{whole};
ghost use Rattle.sj_steal.specs.Runs.{Each2, HasRun, RanMore};
ghost use Rattle.sj_steal.specs.Members.{IsReach, deque_of, done_by, own_hand, own_put, own_taken, stolen_by, taken_by, way_of};
ghost use Rattle.sj_steal.specs.Teams.{GotBack, HasWays, IsBack, IsEmptied};

use crate::job::Job;
use crate::member::{Member, Reach};
use crate::rule::Return;
use std::alloc::Global;
use std::mem;

fn give_back<J: Job>(member: &mut Member<J>, reach: Reach<J>)
    requires part { 0 < (own_hand member.old).parts }
    requires reach { IsReach reach }
    requires way { way_of reach ≡ deque_of member.old }
    ensures back { GotBack member.old member.new }
    ensures taken { own_taken member.new ≡ own_taken member.old ++ stolen_by reach }
{
    let Reach { stealer, pass } = reach;
    member.own.absorb::<Return>(pass);
    drop(stealer);
}

/// Gives each member the way into its deque back.
fn give_back_each<J: Job>(members: &mut Vec<Member<J>>, row: Vec<Reach<J>>)
    requires parts { All (λ m. 0 < (own_hand m).parts) members.old.items }
    requires ways { map way_of row.items ≡ map deque_of members.old.items }
    requires reaches { All IsReach row.items }
    ensures back { Each2 GotBack members.old.items members.new.items }
    ensures taken { IsPermutation (flat_map taken_by members.old.items ++ flat_map stolen_by row.items)
        (flat_map taken_by members.new.items) }
{
    let mut row = row;
    while let Some(reach) = row.pop() {
        give_back(&mut members[row.len()], reach);
    }
}

/// Gives all ways back. So each member knows all of its deque again.
pub(crate) fn give_all_back<J: Job>(alloc: Global, members: &mut Vec<Member<J>>)
    requires few { length members.old.items < whole }
    requires back { All (IsBack (whole - length members.old.items)) members.old.items }
    requires ways { All (HasWays (map deque_of members.old.items)) members.old.items }
    ensures back { All (IsBack whole) members.new.items }
    ensures alone { All (λ m. m.all.items ≡ []) members.new.items }
    ensures put { flat_map own_put members.new.items ≡ flat_map own_put members.old.items }
    ensures done { flat_map done_by members.new.items ≡ flat_map done_by members.old.items }
    ensures taken { IsPermutation (flat_map taken_by members.old.items) (flat_map taken_by members.new.items) }
{
    for worker in 0..members.len() {
        let row = mem::replace(&mut members[worker].all, Vec::new(alloc));
        give_back_each(members, row);
    }
}

/// Runs what is left in the deques, in the thread of the caller.
pub(crate) fn finish<J: Job>(members: &mut Vec<Member<J>>)
    requires back { All (IsBack whole) members.old.items }
    requires alone { All (λ m. m.all.items ≡ []) members.old.items }
    requires can_run { J.can_run }
    ensures ran { RanMore (HasRun J.number_of J.ran) (flat_map taken_by members.old.items) (flat_map done_by members.old.items)
        (flat_map taken_by members.new.items) (flat_map done_by members.new.items) }
    ensures emptied { Each2 IsEmptied members.old.items members.new.items }
{
    for worker in 0..members.len() {
        members[worker].rest_jobs();
    }
}

/// All jobs of the first list, put after the second.
fn pour<J: Job>(from: Vec<J>, into: &mut Vec<J>)
    requires { length from.items + vec_len into.old ≤ vec_capacity into.old }
    ensures items { IsPermutation (into.old.items ++ from.items) into.new.items }
    ensures capacity { vec_capacity into.new ≡ vec_capacity into.old }
{
    let mut from = from;
    while let Some(job) = from.pop() {
        into.push_reserved(job);
    }
}

/// What all have run, in one list.
pub(crate) fn gather<J: Job>(members: Vec<Member<J>>, into: &mut Vec<J>)
    requires { length (flat_map done_by members.items) + vec_len into.old ≤ vec_capacity into.old }
    ensures items { IsPermutation (into.old.items ++ flat_map done_by members.items) into.new.items }
{
    let mut members = members;
    while let Some(member) = members.pop() {
        let Member {
            own,
            all,
            done,
            most: _,
        } = member;
        pour(done, into);
        drop(own);
        drop(all);
    }
}
