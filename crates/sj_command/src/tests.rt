//! Words, and what they ask for.
use crate::{Task, task_in};
use std::alloc::Global;
use std::test::Fail;

fn asked(alloc: Global, words: &[&str]) -> Result<Option<Task>, Fail> {
    let mut owned = Vec::new(alloc);
    for word in words {
        owned.push(String::from_str(alloc, word)?)?;
    }
    Ok(task_in(alloc, &owned)?)
}

const RUNS: [(&[&str], bool, u32, Option<u16>); 14] = [
    (&["run"], false, 1000, None),
    (&["--", "run"], false, 1000, None),
    (&["run", "--log"], true, 1000, None),
    (&["--log", "run"], true, 1000, None),
    (&["run", "--looks", "0"], false, 0, None),
    (&["run", "--looks=5"], false, 5, None),
    (&["--looks", "7", "run"], false, 7, None),
    (&["run", "--looks", "1000000"], false, 1_000_000, None),
    (&["run", "--log", "--looks", "5"], true, 5, None),
    (&["--looks=1000", "--log", "run"], true, 1000, None),
    (&["run", "--workers", "1"], false, 1000, Some(1)),
    (&["--workers", "16", "run"], false, 1000, Some(16)),
    (&["run", "--workers=2", "--looks", "0"], false, 0, Some(2)),
    (
        &["run", "--log", "--looks=5", "--workers", "9"],
        true,
        5,
        Some(9),
    ),
];

#[test]
fn words_of_run(rt: HostRuntime) -> Result<(), Fail> {
    for (words, log, looks, workers) in RUNS {
        let wanted = Task::Run {
            log,
            looks,
            workers,
        };
        assert_eq!(rt; asked(rt.alloc(), words)?, Some(wanted), "{words:?}");
    }
    Ok(())
}

const OTHERS: [(&[&str], Option<Task>); 29] = [
    (&["check"], Some(Task::Check)),
    (&["show"], Some(Task::Show)),
    (&["forest"], Some(Task::Forest)),
    (&["sim"], Some(Task::Sim)),
    (&["run", "--forward"], Some(Task::Forward)),
    (&["--forward", "run"], Some(Task::Forward)),
    (&["run", "--forward", "--log"], None),
    (&["run", "--forward", "--looks", "5"], None),
    (&["run", "--workers", "2", "--forward"], None),
    (&["sim", "--forward"], None),
    (&["replay"], Some(Task::Replay { log: false })),
    (&["replay", "--log"], Some(Task::Replay { log: true })),
    (&["--log", "replay"], Some(Task::Replay { log: true })),
    (&["--", "replay"], Some(Task::Replay { log: false })),
    (&["talk", "0"], Some(Task::Talk(0))),
    (&["talk", "15"], Some(Task::Talk(15))),
    (&["talk", "16"], None),
    (&["talk", "00"], None),
    (&["talk"], None),
    (&["make", "1"], Some(Task::Make(1))),
    (&["make", "--", "999"], Some(Task::Make(999))),
    (&["make", "1000"], Some(Task::Make(1000))),
    (&["big", "1"], Some(Task::Big(1))),
    (&["big", "1000"], Some(Task::Big(1000))),
    (&["--", "big", "10"], Some(Task::Big(10))),
    (&[], None),
    (&[""], None),
    (&["run", "--looks", ""], None),
    (&["run", "--looks", " 5"], None),
];

#[test]
fn words_of_other_commands_and_of_none(rt: HostRuntime) -> Result<(), Fail> {
    for (words, task) in OTHERS {
        assert_eq!(rt; asked(rt.alloc(), words)?, task, "{words:?}");
    }
    Ok(())
}
