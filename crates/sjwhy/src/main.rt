//! `sjwhy`: reads a file on standard input, and says on standard output why it is refused and how
//! that is mended, or what it comes to.
#![tactic(auto)]

use sj_base::{NoMemory, ReadSource, WriteSink};
use sj_explain::{NO_MEMORY, explain};
use std::env;
use std::io::ErrorKind;
use std::process::ExitCode;

fn main(rt: HostRuntime) -> ExitCode {
    let words = match words_of(&rt) {
        Ok(words) => words,
        Err(NoMemory) => return ExitCode::from(NO_MEMORY),
    };
    let mut src = ReadSource::new(rt.stdin());
    let mut out = WriteSink::new(rt.stdout());
    ExitCode::from(explain(rt.alloc(), &words, &mut src, &mut out))
}

// The words after the program's name. Words that aren't text are none of the program's, as an empty
// one is.
fn words_of(rt: &HostRuntime) -> Result<Vec<String>, NoMemory> {
    match env::args(rt) {
        Ok(args) => Ok(args.skip(1).collect(rt.alloc())?),
        Err(e) if e.kind() == ErrorKind::OutOfMemory => Err(NoMemory),
        Err(_) => {
            let mut words = Vec::new(rt.alloc());
            words.push(String::new(rt.alloc()))?;
            Ok(words)
        }
    }
}
