//! Jobs put into the deques.
ghost use Rattle.std.specs.Prelude.{◌≡◌, ◌+◌, ◌*◌, ◌/◌, ◌<◌, ◌≤◌, [], ◌∷◌, ◌++◌, All, length};
ghost use Rattle.std.specs.List.{flat_map};
ghost use Rattle.std.specs.List.Sorted.{IsPermutation};
ghost use Rattle.crossbeam_deque.specs.Handles.{worker_capacity, worker_index};
ghost use Rattle.sj_steal.specs.Runs.{Each2};
ghost use Rattle.sj_steal.specs.Members.{own_hand, own_put};
ghost use Rattle.sj_steal.specs.Teams.{Dealt, IsSpread};

use crate::job::Job;
use crate::member::Member;
use crate::rule::Put;

/// One job into a deque that has room.
fn put<J: Job>(member: &mut Member<J>, job: J)
    requires part { 0 < (own_hand member.old).parts }
    requires room { worker_index member.old.own < worker_capacity member.old.own }
    ensures dealt { Dealt member.old member.new }
    ensures put { own_put member.new ≡ own_put member.old ++ job ∷ [] }
    ensures index { worker_index member.new.own ≡ worker_index member.old.own + 1 }
{
    match member.own.push_as::<Put>(job) {
        Ok(()) => {}
        Err(_) => unreachable!(),
    }
}

/// Puts the job at index i into the deque of number i, modulo the number of deques.
pub(crate) fn deal<J: Job>(members: &mut Vec<Member<J>>, jobs: Vec<J>)
    requires some { 0 < length members.old.items }
    requires parts { All (λ m. 0 < (own_hand m).parts) members.old.items }
    requires none { All (λ m. worker_index m.own ≡ 0) members.old.items }
    requires slots { All (λ m. length jobs.items / length members.old.items + 1 ≤ worker_capacity m.own) members.old.items }
    ensures dealt { Each2 Dealt members.old.items members.new.items }
    ensures spread { IsSpread (length members.old.items) (length jobs.items) members.new.items }
    ensures put { IsPermutation (flat_map own_put members.old.items ++ jobs.items) (flat_map own_put members.new.items) }
{
    let mut jobs = jobs;
    jobs.reverse();
    let count = members.len();
    let mut turn = 0;
    while let Some(job) = jobs.pop() {
        put(&mut members[turn % count], job);
        turn += 1;
    }
}
