//! The pool.
ghost use Rattle.std.specs.Prelude.{◌≡◌, ◌+◌, ◌/◌, ◌<◌, ◌≤◌, [], All, IfOk, IfErr, length, map, vec_capacity};
ghost use Rattle.sj_steal.specs.Runs.{HasRun, IsDone};
ghost use Rattle.sj_steal.specs.Members.{deque_of};
ghost use Rattle.sj_steal.specs.Teams.{IsConnected, IsNew};

use crate::deals::deal;
use crate::hires::hire;
use crate::job::Job;
use crate::member::Member;
use crate::returns::{finish, gather, give_all_back};
use crate::team::set_to_work;
use sj_base::NoMemory;
use std::alloc::{AllocError, Global};
use std::thread::Threads;

/// Runs each job once and hands them back in order of their numbers. The job at index i begins in the deque of the worker i,
/// modulo their number. A worker takes from its own deque until that is empty, tries each other one once, and ends; what is left
/// then, the caller runs. All memory is taken first: where it is short, the jobs come back as they were, and none was run.
pub fn pool<R: Threads + Sync, J: Job>(
    rt: &R,
    alloc: Global,
    jobs: Vec<J>,
    workers: u16,
) -> Result<Vec<J>, (Vec<J>, NoMemory)>
    requires some { 0 < workers }
    requires can_run { J.can_run }
    ensures ok { IfOk result (λ done. IsDone J.number_of J.ran jobs.items done.items) }
    ensures err { IfErr result (λ back. back.0 ≡ jobs) }
{
    match room_for(alloc, jobs.len(), workers) {
        Ok((members, room)) => Ok(work_off(rt, alloc, jobs, members, room)),
        Err(_) => Err((jobs, NoMemory)),
    }
}

/// All memory that the work needs.
fn room_for<J: Job>(
    alloc: Global,
    jobs: usize,
    workers: u16,
) -> Result<(Vec<Member<J>>, Vec<J>), AllocError>
    requires { 0 < workers }
    ensures connected { IfOk result (λ r. IsConnected workers workers r.0.items) }
    ensures most { IfOk result (λ r. All (λ m. m.most ≡ jobs / workers + 1) r.0.items) }
    ensures room { IfOk result (λ r. (r.1.items ≡ []) × (jobs ≤ vec_capacity r.1)) }
{
    let members = hire(alloc, jobs, workers)?;
    let room = Vec::with_capacity(alloc, jobs)?;
    Ok((members, room))
}

/// The work itself, in memory that is there.
fn work_off<R: Threads + Sync, J: Job>(
    rt: &R,
    alloc: Global,
    jobs: Vec<J>,
    members: Vec<Member<J>>,
    room: Vec<J>,
) -> Vec<J>
    requires some { 0 < length members.items }
    requires connected { IsConnected (length members.items) (length members.items) members.items }
    requires most { All (λ m. m.most ≡ length jobs.items / length members.items + 1) members.items }
    requires few { length members.items < 65536 }
    requires can_run { J.can_run }
    requires room { (room.items ≡ []) × (length jobs.items ≤ vec_capacity room) }
    ensures { IsDone J.number_of J.ran jobs.items result.items }
{
    let mut members = members;
    let mut done = room;
    deal(&mut members, jobs);
    set_to_work(rt, &mut members);
    give_all_back(alloc, &mut members);
    finish(&mut members);
    gather(members, &mut done);
    done.sort_unstable_by_key(|job| job.number());
    done
}
