//! One thread of the pool.
ghost use Rattle.std.specs.List.Sorted.{IsPermutation};
ghost use Rattle.std.specs.Prelude.{IsTrue, IsFalse, ◌≡◌, ◌+◌, ◌<◌, ◌≤◌, ◌++◌, [], ◌∷◌, ℕ, length, vec_len, vec_capacity, MatchOption};
ghost use Rattle.crossbeam_deque.specs.Handles.{view, worker_view};
ghost use Rattle.sj_steal.specs.Hands.{whole};
ghost use Rattle.sj_steal.specs.Teams.{IsBack};
ghost use Rattle.sj_steal.specs.Runs.{HasRun, RanMore};
ghost use Rattle.sj_steal.specs.Members.{HasRoom, IsMember, IsReach, IsReady, SameMember, Works};
ghost use Rattle.sj_steal.specs.Members.{done_by, own_hand, own_put, own_taken, stolen_by, taken_by, way_of};

use crate::job::Job;
use crate::rule::{Fair, Hand, Take, TakeRest};
use crossbeam_deque::{Pass, Steal, Stealer, Worker};
use std::alloc::Global;

pub(crate) type Owner<J> = Worker<J, Global, Hand<J>, Fair>;

pub(crate) type Thief<J> = Stealer<J, Global, Hand<J>, Fair>;

/// A way into the deque of a member.
#[derive(Drop)]
pub(crate) struct Reach<J> {
    pub(crate) stealer: Thief<J>,
    pub(crate) pass: Pass<J, Hand<J>>,
}

impl<J: Job> Reach<J> {
    /// One try at the job that is first there.
    fn steal(&mut self) -> Option<J>
        requires { IsReach self.old }
        ensures reach { IsReach self.new }
        ensures way { way_of self.new ≡ way_of self.old }
        ensures taken { MatchOption result (stolen_by self.new ≡ stolen_by self.old)
            (λ x. stolen_by self.new ≡ stolen_by self.old ++ x ∷ []) }
    {
        match self.stealer.steal_as::<Take>(&mut self.pass) {
            Steal::Success(job) => Some(job),
            Steal::Empty => None,
            Steal::Retry => None,
        }
    }
}

/// A deque of its own, a way into the deque of each member, and the jobs that its thread has run.
#[derive(Drop)]
pub(crate) struct Member<J> {
    pub(crate) own: Owner<J>,
    pub(crate) all: Vec<Reach<J>>,
    pub(crate) done: Vec<J>,
    /// No more jobs than these are put into its deque.
    pub(crate) most: usize,
}

/// Runs the job and keeps it.
fn run_into<J: Job>(done: &mut Vec<J>, job: J)
    requires room { vec_len done.old < vec_capacity done.old }
    requires can_run { J.can_run }
    ensures capacity { vec_capacity done.new ≡ vec_capacity done.old }
    ensures run { (new : J) × HasRun J.number_of J.ran job new × (done.new.items ≡ done.old.items ++ new ∷ []) }
{
    let mut job = job;
    job.run();
    done.push_reserved(job);
}

impl<J: Job> Member<J> {
    /// One job of its own deque, if there is one.
    fn own_job(&mut self) -> bool
        requires member { IsMember self.old }
        requires can_run { J.can_run }
        requires room { vec_len self.old.done < vec_capacity self.old.done }
        ensures member { IsMember self.new }
        ensures same { SameMember self.old self.new }
        ensures ran { RanMore (HasRun J.number_of J.ran) (taken_by self.old) (done_by self.old) (taken_by self.new) (done_by self.new) }
        ensures count { vec_len self.new.done + length (own_taken self.old) ≡ vec_len self.old.done + length (own_taken self.new) }
        ensures one { length (own_taken self.new) ≤ length (own_taken self.old) + 1 }
    {
        match self.own.pop_as::<Take>() {
            Some(job) => {
                run_into(&mut self.done, job);
                true
            }
            None => false,
        }
    }

    /// The job that is first in another's deque, if there is one.
    fn stolen_job(&mut self, worker: usize, from: usize)
        requires from { from < vec_len self.old.all }
        requires member { IsMember self.old }
        requires can_run { J.can_run }
        requires room { vec_len self.old.done < vec_capacity self.old.done }
        ensures member { IsMember self.new }
        ensures same { SameMember self.old self.new }
        ensures ran { RanMore (HasRun J.number_of J.ran) (taken_by self.old) (done_by self.old) (taken_by self.new) (done_by self.new) }
        ensures own { own_hand self.new ≡ own_hand self.old }
        ensures one { vec_len self.new.done ≤ vec_len self.old.done + 1 }
    {
        if from == worker {
            return;
        }
        match self.all[from].steal() {
            Some(job) => run_into(&mut self.done, job),
            None => {}
        }
    }

    /// Its own jobs, until its deque is empty.
    fn own_jobs(&mut self)
        requires member { IsMember self.old }
        requires can_run { J.can_run }
        requires room { HasRoom (vec_len self.old.all) self.old }
        requires first { length (own_taken self.old) ≡ 0 }
        ensures member { IsMember self.new }
        ensures same { SameMember self.old self.new }
        ensures ran { RanMore (HasRun J.number_of J.ran) (taken_by self.old) (done_by self.old) (taken_by self.new) (done_by self.new) }
        ensures room { HasRoom (vec_len self.old.all) self.new }
    {
        for _ in 0..self.most {
            if !self.own_job() {
                return;
            }
        }
    }

    /// One try at each deque of another.
    fn stolen_jobs(&mut self, worker: usize)
        requires member { IsMember self.old }
        requires can_run { J.can_run }
        requires room { HasRoom (vec_len self.old.all) self.old }
        ensures member { IsMember self.new }
        ensures same { SameMember self.old self.new }
        ensures ran { RanMore (HasRun J.number_of J.ran) (taken_by self.old) (done_by self.old) (taken_by self.new) (done_by self.new) }
        ensures room { HasRoom 0 self.new }
    {
        for from in 0..self.all.len() {
            self.stolen_job(worker, from);
        }
    }

    /// What its thread does.
    pub(crate) fn work(&mut self, worker: usize)
        requires ready { IsReady self.old }
        requires can_run { J.can_run }
        ensures { Works (HasRun J.number_of J.ran) self.old self.new }
    {
        self.own_jobs();
        self.stolen_jobs(worker);
    }

    /// One of the jobs that are left in its deque, where it knows all of it.
    fn rest_job(&mut self) -> bool
        requires back { IsBack whole self.old }
        requires alone { self.old.all.items ≡ [] }
        requires can_run { J.can_run }
        ensures back { IsBack whole self.new }
        ensures all { self.new.all ≡ self.old.all }
        ensures put { own_put self.new ≡ own_put self.old }
        ensures most { self.new.most ≡ self.old.most }
        ensures ran { RanMore (HasRun J.number_of J.ran) (taken_by self.old) (done_by self.old) (taken_by self.new) (done_by self.new) }
        ensures one { IsTrue result →
            (length (own_taken self.new) ≡ length (own_taken self.old) + 1) × (length (own_taken self.new) ≤ self.new.most) }
        ensures none { IsFalse result → IsPermutation (own_put self.new) (own_taken self.new) }
    {
        match self.own.pop_as::<TakeRest>() {
            Some(job) => {
                run_into(&mut self.done, job);
                true
            }
            None => false,
        }
    }

    /// The jobs that are left in its deque.
    pub(crate) fn rest_jobs(&mut self)
        requires back { IsBack whole self.old }
        requires alone { self.old.all.items ≡ [] }
        requires can_run { J.can_run }
        ensures all { self.new.all ≡ self.old.all }
        ensures put { own_put self.new ≡ own_put self.old }
        ensures ran { RanMore (HasRun J.number_of J.ran) (taken_by self.old) (done_by self.old) (taken_by self.new) (done_by self.new) }
        ensures none { IsPermutation (own_put self.new) (own_taken self.new) }
    {
        while self.rest_job() {}
    }
}
