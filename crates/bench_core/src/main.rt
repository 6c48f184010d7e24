//! `bench_core`: reads a file on standard input, drains its core world from the start on, and prints
//! how many events that has. `bench/core` times it.
#![tactic(auto)]

ghost use Rattle.std.specs.Prelude.{◌≤◌, length, IfSome};
ghost use Rattle.bench_core.specs.Drains.{HasEvents};
ghost use Rattle.sj_lang.specs.Limits.{file_limit};

use sj_base::{ReadSource, read_all};
use sj_check::check;
use sj_core::World;
use sj_party::parse_file;
use std::alloc::Global;
use std::process::ExitCode;

// How many events a drain has from the start of the file on, where that is accepted.
fn events_in(alloc: Global, bytes: &[u8]) -> Option<usize>
    requires { length bytes.now ≤ file_limit }
    ensures { IfSome result (HasEvents bytes.now) }
{
    let Ok(file) = parse_file(alloc, bytes) else {
        return None;
    };
    let Ok(accepted) = check(alloc, file) else {
        return None;
    };
    let Ok(mut world) = World::start(alloc, &accepted) else {
        return None;
    };
    match world.drain() {
        Ok(()) => Some(world.history().len()),
        Err(_) => None,
    }
}

fn main(rt: HostRuntime) -> ExitCode {
    let mut src = ReadSource::new(rt.stdin());
    let bytes = match read_all(rt.alloc(), &mut src, 65_536) {
        Ok(bytes) => bytes,
        Err(_) => return ExitCode::FAILURE,
    };
    match events_in(rt.alloc(), &bytes) {
        Some(events) => match println!(rt; "{events}") {
            Ok(()) => ExitCode::SUCCESS,
            Err(_) => ExitCode::FAILURE,
        },
        None => ExitCode::FAILURE,
    }
}
