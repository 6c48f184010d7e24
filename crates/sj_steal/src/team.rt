//! All members at work.
ghost use Rattle.std.specs.Prelude.{◌≡◌, ◌<◌, ℕ, All, length, slice_index_or};
ghost use Rattle.sj_steal.specs.Runs.{Each2, HasRun};
ghost use Rattle.sj_steal.specs.Members.{IsReady, Works};

use crate::job::Job;
use crate::member::Member;
use std::thread::{self, Threads};

/// Each member at work, in a thread of its own where one can be made.
pub(crate) fn set_to_work<R: Threads + Sync, J: Job>(rt: &R, members: &mut Vec<Member<J>>)
    requires ready { All IsReady members.old.items }
    requires can_run { J.can_run }
    ensures { Each2 (Works (HasRun J.number_of J.ran)) members.old.items members.new.items }
{
    work_each(rt, members.as_mut_slice());
}

fn work_each<R: Threads + Sync, J: Job>(rt: &R, members: &mut [Member<J>])
    requires ready { All IsReady members.old }
    requires can_run { J.can_run }
    ensures length { length members.new ≡ length members.old }
    ensures each { (i : ℕ) (d : _) → i < length members.old →
        Works (HasRun J.number_of J.ran) (slice_index_or members.old i d) (slice_index_or members.new i d) }
{
    let threads = members.len().max(1);
    thread::for_each_mut(
        rt,
        members,
        threads,
        &|worker, member|
            requires { IsReady member.now × J.can_run }
        { member.work(worker) },
    );
}
