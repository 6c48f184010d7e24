//! `bench_wire`: reads a stream of frames on standard input, in pieces of 4,096 bytes, and prints how
//! many there are. `bench/wire` times it.
#![tactic(auto)]

use sj_base::{ReadSource, Source};
use sj_wire::{Decoder, WireRefusal};
use std::alloc::Global;
use std::process::ExitCode;

// Feeds a piece, and answers how many frames it completes: each has a byte of it.
fn completed(decoder: &mut Decoder, piece: &[u8]) -> Result<u64, WireRefusal> {
    decoder.feed(piece)?;
    let mut frames = 0u64;
    for _ in 0..piece.len() {
        if decoder.next()?.is_none() {
            break;
        }
        frames = frames.saturating_add(1);
    }
    Ok(frames)
}

// How many frames the source has. None is a read that failed, or a stream that is refused.
fn frames_of<S: Source>(alloc: Global, src: &mut S) -> Option<u64> {
    let mut decoder = Decoder::new(alloc);
    let mut buf = [0u8; 4096];
    let mut frames = 0u64;
    for _ in 0..u64::MAX {
        let n = src.read(&mut buf).ok()?;
        if n == 0 {
            break;
        }
        frames = frames.saturating_add(completed(&mut decoder, &buf[..n]).ok()?);
    }
    Some(frames)
}

fn main(rt: HostRuntime) -> ExitCode {
    let mut src = ReadSource::new(rt.stdin());
    match frames_of(rt.alloc(), &mut src) {
        Some(frames) => match println!(rt; "{frames}") {
            Ok(()) => ExitCode::SUCCESS,
            Err(_) => ExitCode::FAILURE,
        },
        None => ExitCode::FAILURE,
    }
}
