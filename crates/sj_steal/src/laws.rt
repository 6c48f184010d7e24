//! What follows for callers.
//!
//! - `jobs_in_order_stay`: jobs that are given in order of numbers that differ come back each at its index.
ghost use Rattle.std.specs.Prelude.{List};
ghost use Rattle.sj_steal.specs.Runs.{Each2, HasRun, IsDone, Rises};

use crate::job::Job;

pub fn jobs_in_order_stay<J: Job>()
    ensures { (jobs done : List _) → Rises J.number_of jobs → IsDone J.number_of J.ran jobs done → Each2 (HasRun J.number_of J.ran) jobs done }
{}
