//! One call at each of many values, on a pool.
ghost use Rattle.std.specs.Prelude.{◌≡◌, ◌<◌, ◌≤◌, IfOk, length, map};
ghost use Rattle.sj_steal.specs.Calls.{Leaves};
ghost use Rattle.sj_steal.specs.Runs.{Each2};
ghost use Rattle.sj_steal.specs.Tasks.{AreTasks, value_of};

use crate::laws::jobs_in_order_stay;
use crate::pools::pool;
use crate::task::Task;
use sj_base::NoMemory;
use std::alloc::Global;
use std::thread::Threads;

/// A call at each value, with the value's index as its number.
fn tasks_of<'a, W: Send + Drop, F: Fn(&mut W) + Sync>(
    alloc: Global,
    values: Vec<W>,
    call: &'a F,
) -> Result<Vec<Task<'a, W, F>>, NoMemory>
    requires few { length values.items ≤ 65536 }
    ensures { IfOk result (λ ts. AreTasks call.now values.items ts.items) }
{
    let mut tasks = Vec::new(alloc);
    for value in values {
        let number = tasks.len() as u16;
        tasks.push(Task {
            number,
            value,
            call,
        })?;
    }
    Ok(tasks)
}

/// What the calls left.
fn values_of<'a, W: Send + Drop, F: Fn(&mut W) + Sync>(
    alloc: Global,
    tasks: Vec<Task<'a, W, F>>,
) -> Result<Vec<W>, NoMemory>
    ensures { IfOk result (λ v. v.items ≡ map value_of tasks.entry.items) }
{
    let values: Vec<W> = tasks.into_iter().map(|task| task.value).collect(alloc)?;
    Ok(values)
}

/// Each value after one call, in their order, on so many threads that take each other's work.
pub fn call_each<R: Threads + Sync, W: Send + Drop, F: Fn(&mut W) + Sync>(
    rt: &R,
    alloc: Global,
    values: Vec<W>,
    threads: u16,
    call: &F,
) -> Result<Vec<W>, NoMemory>
    requires some { 0 < threads }
    requires few { length values.items ≤ 65536 }
    requires callable { (f : F) (x : _) → F.pre f x }
    ensures { IfOk result (λ new. Each2 (Leaves F.Fn call.now) values.items new.items) }
{
    jobs_in_order_stay::<Task<W, F>>();
    let tasks = tasks_of(alloc, values, call)?;
    let done = match pool(rt, alloc, tasks, threads) {
        Ok(done) => done,
        Err(_) => return Err(NoMemory),
    };
    let values = values_of(alloc, done)?;
    Ok(values)
}
