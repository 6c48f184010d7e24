//! `sj_blocked`: the program `sj` again, with a stored run of a file that blocks, which shows that
//! the status of the top call is that of the program.
#![tactic(auto)]

use sj_base::{ReadSource, WriteSink};
use sj_entry::enter;
use sj_lane::RingLinks;
use sj_work::NoGate;
use std::process::ExitCode;

fn main(rt: HostRuntime) -> ExitCode {
    let mut src = ReadSource::new(rt.stdin());
    let mut out = WriteSink::new(rt.stdout());
    let mut links = RingLinks::new();
    ExitCode::from(enter(&rt, &rt, &mut src, &mut out, &mut links, &NoGate))
}
