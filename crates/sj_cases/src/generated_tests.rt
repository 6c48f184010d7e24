//! Generated files, run on threads.
use crate::calls::{answer, answer_over};
use crate::draft::generated;
use crate::worlds::accepted_in;
use sj_base::NoMemory;
use sj_core::first_nodes;
use sj_lane::{Links, MemLinks, RingLinks};
use sj_work::{NoGate, Stop, Worker, work_all};
use std::alloc::Global;
use std::process::Abort;
use std::test::Fail;
use std::thread::{self, Threads};

// Some files: the number of the first, how many they are, and how many of them are done, blocked, and
// not as they have to be.
#[derive(Clone, Copy)]
struct Files {
    first: u64,
    many: u64,
    done: u32,
    blocked: u32,
    wrong: u32,
}

// Each file is accepted. Its transcript and status by `run` are those of `sim`, over rings and over
// lists. No worker of it stops as unfit, at a fault or out of memory.
fn play<R: Threads + Sync>(rt: &R, alloc: Global, files: &mut Files) {
    for at in 0..files.many {
        match played(rt, alloc, files.first.wrapping_add(at)) {
            Ok(Some(0)) => files.done = files.done.wrapping_add(1),
            Ok(Some(6)) => files.blocked = files.blocked.wrapping_add(1),
            _ => files.wrong = files.wrong.wrapping_add(1),
        }
    }
}

// The status of the file of that number, where all is as it has to be.
fn played<R: Threads + Sync>(rt: &R, alloc: Global, number: u64) -> Result<Option<u8>, NoMemory> {
    let file = generated(alloc, number)?;
    let (wanted, told) = answer(rt, alloc, &["sim"], &file)?;
    let mut rings = RingLinks::new();
    for looks in ["0", "100"] {
        let words = ["run", "--looks", looks];
        let (status, out) = answer_over(rt, alloc, &words, &file, &mut rings)?;
        if status != wanted || out.text() != told.text() {
            return Ok(None);
        }
    }
    let (status, out) = answer_over(rt, alloc, &["run"], &file, &mut MemLinks::new())?;
    if status != wanted || out.text() != told.text() || !all_fit(rt, alloc, &file)? {
        return Ok(None);
    }
    Ok(Some(wanted))
}

// Whether each worker of the file has finished or has nothing to do.
fn all_fit<R: Threads + Sync>(rt: &R, alloc: Global, text: &[u8]) -> Result<bool, NoMemory> {
    let Some(accepted) = accepted_in(alloc, text) else {
        return Ok(false);
    };
    let mut nodes = first_nodes(alloc, &accepted)?;
    let Ok(made) = RingLinks::new().make(alloc, nodes.len() as u16) else {
        return Ok(false);
    };
    let mut lanes = made;
    let mut workers = Vec::new(alloc);
    for _ in 0..nodes.len() {
        let (Some(node), Some(own)) = (nodes.pop(), lanes.pop()) else {
            return Ok(false);
        };
        workers.insert(0, Worker::new(node, own))?;
    }
    work_all(rt, &mut workers, 100, &NoGate);
    for worker in workers.iter() {
        let stop = worker.stop();
        if stop != Some(Stop::Finished) && stop != Some(Stop::Idle) {
            return Ok(false);
        }
    }
    Ok(true)
}

// The 32 files from that number on are played by four callers at once. Some of them are done, and some
// block.
fn expect_played<R: Abort + Threads + Sync>(rt: &R, alloc: Global, first: u64) -> Result<(), Fail> {
    let mut parts = Vec::new(alloc);
    for part in 0..4u64 {
        parts.push(Files {
            first: first.wrapping_add(part * 8),
            many: 8,
            done: 0,
            blocked: 0,
            wrong: 0,
        })?;
    }
    thread::for_each_mut(rt, &mut parts, 4, &|_, part| play(rt, alloc, part));
    let (mut done, mut blocked): (u32, u32) = (0, 0);
    for part in parts.iter() {
        assert_eq!(rt; part.wrong, 0, "of 8 files from {}", part.first);
        done = done.wrapping_add(part.done);
        blocked = blocked.wrapping_add(part.blocked);
    }
    assert!(rt; done > 4 && blocked > 4, "{done} done, {blocked} blocked");
    Ok(())
}

#[test]
fn files_to_31_run_as_sim_plays_them(rt: HostRuntime) -> Result<(), Fail> {
    expect_played(&rt, rt.alloc(), 0)
}

#[test]
fn files_to_63_run_as_sim_plays_them(rt: HostRuntime) -> Result<(), Fail> {
    expect_played(&rt, rt.alloc(), 32)
}

#[test]
fn files_to_95_run_as_sim_plays_them(rt: HostRuntime) -> Result<(), Fail> {
    expect_played(&rt, rt.alloc(), 64)
}

#[test]
fn files_to_127_run_as_sim_plays_them(rt: HostRuntime) -> Result<(), Fail> {
    expect_played(&rt, rt.alloc(), 96)
}
