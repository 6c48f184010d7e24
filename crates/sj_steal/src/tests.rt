//! A pool over jobs that count their runs.
ghost use Rattle.std.specs.Prelude.{◌≡◌, ◌+◌, min};

use crate::{Job, Task, call_each, pool};
use std::alloc::Global;
use std::test::Fail;

#[derive(Drop, Clone, Copy, Debug, PartialEq, Eq)]
struct Count {
    number: u16,
    runs: u8,
}

impl Job for Count {
    ghost use Rattle.std.specs.Prelude.{◌≡◌, ◌+◌, min};

    ghost number_of = { λ job. job.number };

    ghost can_run = { Unit {0} };

    ghost ran = { λ old new. new.runs ≡ min (old.runs + 1) 255 };

    fn number(&self) -> u16 {
        self.number
    }

    fn run(&mut self) {
        self.runs = self.runs.saturating_add(1);
    }
}

/// The jobs of these numbers, each with so many runs.
fn counts(alloc: Global, numbers: &[u16], runs: u8) -> Result<Vec<Count>, Fail> {
    let mut jobs = Vec::with_capacity(alloc, numbers.len())?;
    for number in numbers {
        jobs.push(Count {
            number: *number,
            runs,
        })?;
    }
    Ok(jobs)
}

// The numbers of the jobs, how many workers there are, and the numbers in the order of the answer.
const ROWS: [(&[u16], u16, &[u16]); 4] = [
    (&[], 2, &[]),
    (
        &[9, 3, 12, 0, 15, 7, 1, 14, 4, 10, 2, 13, 5, 11, 8, 6],
        3,
        &[0, 1, 2, 3, 4, 5, 6, 7, 8, 9, 10, 11, 12, 13, 14, 15],
    ),
    (&[700, 20, 65535], 16, &[20, 700, 65535]),
    (&[1, 0, 1], 1, &[0, 1, 1]),
];

#[test]
fn jobs_run_once_and_come_back_in_order_or_as_they_were(rt: HostRuntime) -> Result<(), Fail> {
    let alloc = rt.alloc();
    for (given, workers, wanted) in ROWS {
        let jobs = counts(alloc, given, 0)?;
        let ran = counts(alloc, wanted, 1)?;
        let kept = counts(alloc, given, 0)?;
        match pool(&rt, alloc, jobs, workers) {
            Ok(done) => assert_eq!(rt; done.as_slice(), ran.as_slice(), "{given:?}"),
            Err((back, _)) => assert_eq!(rt; back.as_slice(), kept.as_slice(), "{given:?}"),
        }
    }
    Ok(())
}

#[test]
fn a_task_makes_its_call_once(rt: HostRuntime) -> Result<(), Fail> {
    let double = |value: &mut u8| *value = value.saturating_mul(2);
    let mut tasks = Vec::with_capacity(rt.alloc(), 2)?;
    for number in [1u16, 0] {
        tasks.push(Task {
            number,
            value: 3u8,
            call: &double,
        })?;
    }
    match pool(&rt, rt.alloc(), tasks, 2) {
        Ok(done) => {
            for (index, task) in done.iter().enumerate() {
                assert_eq!(rt; (usize::from(task.number), task.value), (index, 6));
            }
        }
        Err((back, _)) => assert_eq!(rt; back.len(), 2),
    }
    Ok(())
}

#[test]
fn each_value_comes_back_at_its_index_after_one_call(rt: HostRuntime) -> Result<(), Fail> {
    let double = |value: &mut u8| *value = value.saturating_mul(2);
    let mut values = Vec::new(rt.alloc());
    values.push(3u8)?;
    values.push(7)?;
    values.push(1)?;
    let done = call_each(&rt, rt.alloc(), values, 3, &double)?;
    assert_eq!(rt; done.as_slice(), [6u8, 14, 2].as_slice());
    Ok(())
}
