//! `bench_files`: reads a file on standard input and prints how many protocols, parties and
//! connections it has. `bench/files` and `bench/protocols` time it.
#![tactic(auto)]

ghost use Rattle.std.specs.Prelude.{◌≡◌, ◌≤◌, length, IfOk};
ghost use Rattle.sj_lang.specs.FileAt.{FileAt};
ghost use Rattle.sj_lang.specs.Limits.{file_limit};
ghost use Rattle.sj_grammar.specs.Files.{IsFile};

use sj_base::{ReadSource, read_all};
use sj_party::{ParseRefusal, parse_file};
use std::alloc::Global;
use std::process::ExitCode;

// How many protocols, parties and connections the file has.
fn parts_in(alloc: Global, bytes: &[u8]) -> Result<(usize, usize, usize), ParseRefusal>
    requires { length bytes.now ≤ file_limit }
    ensures { IfOk result (λ n. (f : FileAt) × IsFile bytes.now f × (n.0 ≡ length f.protocols)
        × (n.1 ≡ length f.parties) × (n.2 ≡ length f.connects)) }
{
    let file = parse_file(alloc, bytes)?;
    Ok((
        file.protocols.len(),
        file.parties.len(),
        file.connects.len(),
    ))
}

fn main(rt: HostRuntime) -> ExitCode {
    let mut src = ReadSource::new(rt.stdin());
    let bytes = match read_all(rt.alloc(), &mut src, 65_536) {
        Ok(bytes) => bytes,
        Err(_) => return ExitCode::FAILURE,
    };
    match parts_in(rt.alloc(), &bytes) {
        Ok((protocols, parties, connects)) => {
            match println!(rt; "{protocols} {parties} {connects}") {
                Ok(()) => ExitCode::SUCCESS,
                Err(_) => ExitCode::FAILURE,
            }
        }
        Err(_) => ExitCode::FAILURE,
    }
}
