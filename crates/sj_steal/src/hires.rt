//! The members of the pool, with all memory that they need.
ghost use Rattle.std.specs.Prelude.{◌≡◌, ◌+◌, ◌/◌, ◌<◌, ◌≤◌, [], ℕ, All, IfOk, length, map, vec_len, vec_capacity};
ghost use Rattle.std.specs.List.{flat_map};
ghost use Rattle.sj_steal.specs.Hands.{whole};
ghost use Rattle.sj_steal.specs.Runs.{Each2};
ghost use Rattle.sj_steal.specs.Members.{IsReach, deque_of, own_hand, stolen_by, way_of};
ghost use Rattle.sj_steal.specs.Teams.{IsConnected, IsNew, Lent};

use crate::job::Job;
use crate::member::{Member, Owner, Reach};
use crate::rule::Lend;
use std::alloc::{AllocError, Global};

/// A member without jobs and ways, with room for those of its deque and one stolen at each.
fn fresh<J: Job>(alloc: Global, most: usize, workers: usize) -> Result<Member<J>, AllocError>
    ensures { IfOk result (λ m. IsNew workers 0 m × (m.most ≡ most)) }
{
    let own = Owner::fifo_as(alloc, most)?;
    let room = most.checked_add(workers).ok_or(AllocError)?;
    let done = Vec::with_capacity(alloc, room)?;
    Ok(Member {
        own,
        all: Vec::new(alloc),
        done,
        most,
    })
}

/// A way into the deque of that member.
fn lend<J: Job>(member: &mut Member<J>) -> Result<Reach<J>, AllocError>
    requires { 1 < (own_hand member.old).parts }
    ensures reach { IfOk result (λ r. IsReach r × (way_of r ≡ deque_of member.old)) }
    ensures unused { IfOk result (λ r. stolen_by r ≡ []) }
    ensures lent { IfOk result (λ _. Lent member.old member.new) }
{
    let stealer = member.own.stealer()?;
    let pass = member.own.another::<Lend>();
    Ok(Reach { stealer, pass })
}

/// A way into the deque of each, for one member.
fn lend_each<J: Job>(
    alloc: Global,
    members: &mut Vec<Member<J>>,
) -> Result<Vec<Reach<J>>, AllocError>
    requires { All (λ m. 1 < (own_hand m).parts) members.old.items }
    ensures lent { IfOk result (λ _. Each2 Lent members.old.items members.new.items) }
    ensures ways { IfOk result (λ row. map way_of row.items ≡ map deque_of members.old.items) }
    ensures reaches { IfOk result (λ row. All IsReach row.items) }
    ensures unused { IfOk result (λ row. flat_map stolen_by row.items ≡ []) }
{
    let mut row = Vec::with_capacity(alloc, members.len())?;
    for worker in 0..members.len() {
        let reach = lend(&mut members[worker])?;
        row.push_reserved(reach);
    }
    Ok(row)
}

/// The jobs that the first of so many gets, or one more.
fn room_of(jobs: usize, count: usize) -> Result<usize, AllocError>
    requires { 0 < count }
    ensures { IfOk result (λ most. most ≡ jobs / count + 1) }
{
    match (jobs / count).checked_add(1) {
        Some(most) => Ok(most),
        None => Err(AllocError),
    }
}

/// Members without jobs, each with a way into the deque of each.
pub(crate) fn hire<J: Job>(
    alloc: Global,
    jobs: usize,
    workers: u16,
) -> Result<Vec<Member<J>>, AllocError>
    requires { 0 < workers }
    ensures connected { IfOk result (λ ms. IsConnected workers workers ms.items) }
    ensures most { IfOk result (λ ms. All (λ m. m.most ≡ jobs / workers + 1) ms.items) }
{
    let count = usize::from(workers);
    let most = room_of(jobs, count)?;
    let mut members = Vec::with_capacity(alloc, count)?;
    for _ in 0..count {
        members.push_reserved(fresh(alloc, most, count)?);
    }
    connect(alloc, &mut members)?;
    Ok(members)
}

/// Gives each a row of ways, one into the deque of each.
fn connect<J: Job>(alloc: Global, members: &mut Vec<Member<J>>) -> Result<(), AllocError>
    requires few { length members.old.items < whole }
    requires new { All (IsNew (length members.old.items) 0) members.old.items }
    ensures connected { IfOk result (λ _. IsConnected (length members.old.items) (length members.old.items) members.new.items) }
    ensures most { IfOk result (λ _. (k : ℕ) → All (λ m. m.most ≡ k) members.old.items → All (λ m. m.most ≡ k) members.new.items) }
{
    for worker in 0..members.len() {
        let row = lend_each(alloc, members)?;
        members[worker].all = row;
    }
    Ok(())
}
