//! `sj`: runs parties that talk over sessions. It reads a file on standard input, and writes the
//! answer on standard output.
#![tactic(auto)]

use sj_base::{ReadSource, WriteSink};
use sj_entry::enter;
use sj_lane::RingLinks;
use sj_work::NoGate;
use std::process::ExitCode;

fn main(rt: HostRuntime) -> ExitCode {
    let mut src = ReadSource::new(rt.stdin());
    let mut out = WriteSink::new(rt.stdout());
    let mut links = RingLinks::new();
    ExitCode::from(enter(&rt, &rt, &mut src, &mut out, &mut links, &NoGate))
}
