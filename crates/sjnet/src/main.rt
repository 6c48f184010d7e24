//! `sjnet`: the program `sj` over streams of this machine's own address. It reads a file on standard
//! input, and writes the answer on standard output.
#![tactic(auto)]

use sj_base::{ReadSource, WriteSink};
use sj_entry::enter;
use sj_socket::SocketLinks;
use sj_work::NoGate;
use std::process::ExitCode;

#[cfg(test)]
mod tests;

fn main(rt: HostRuntime) -> ExitCode {
    let mut src = ReadSource::new(rt.stdin());
    let mut out = WriteSink::new(rt.stdout());
    let mut links = SocketLinks::new(&rt);
    ExitCode::from(enter(&rt, &rt, &mut src, &mut out, &mut links, &NoGate))
}
