//! `sjdraw`: draws what `sj run --log` or `sj sim` prints. It reads that on standard input, and writes an SVG
//! on standard output.
#![tactic(auto)]

use sj_base::{ReadSource, WriteSink};
use sj_draw::draw;
use std::process::ExitCode;

fn main(rt: HostRuntime) -> ExitCode {
    let mut src = ReadSource::new(rt.stdin());
    let mut out = WriteSink::new(rt.stdout());
    ExitCode::from(draw(rt.alloc(), &mut src, &mut out))
}
