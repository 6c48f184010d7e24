//! `sj_answers`: reads cases on standard input, and prints what the top call answers to each.
#![tactic(auto)]

mod answers;
mod cases;

use cases::report;
use sj_base::{ReadSource, WriteSink, read_all, write_all_of};
use std::process::ExitCode;

/// The most bytes of all cases.
const MOST: usize = 4_194_304;

fn main(rt: HostRuntime) -> ExitCode {
    let mut src = ReadSource::new(rt.stdin());
    let Ok(bytes) = read_all(rt.alloc(), &mut src, MOST) else {
        return ExitCode::FAILURE;
    };
    let Ok(text) = std::str::from_utf8(&bytes) else {
        return ExitCode::FAILURE;
    };
    let Ok(told) = report(&rt, rt.alloc(), text) else {
        return ExitCode::FAILURE;
    };
    match write_all_of(&mut WriteSink::new(rt.stdout()), &told) {
        Ok(()) => ExitCode::SUCCESS,
        Err(_) => ExitCode::FAILURE,
    }
}
