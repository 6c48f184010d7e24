//! Parties of small files, played to their end by one process after another.

use crate::link::Deed;
use crate::process::{FILE, accepted, process, stand};
use crate::server::Server;
use sj_check::Accepted;
use sj_remote_run::Outcome;
use std::alloc::Global;
use std::cell::RefCell;
use std::test::Fail;

// A buyer asks for a number of things; a seller has five. The buyer asks again.
const SHOP: &[u8] = b"protocol buys { begin.!<int>.?(boolean).!<int>.?(boolean) }
protocol sells { begin.?(int).!<boolean>.?(int).!<boolean> }
party buyer { send x 9; recv x a boolean; send x 4; recv x b boolean; close x; }
party seller { recv y m int; send y m <= 5; recv y n int; send y n <= 5; close y; }
connect buyer x buys to seller y sells;
";

// What stands in the end: lines of each stream, with a bar after each entry.
const OF_A: &[u8] = b"1 a send 0.0 int 1\n2 a close 0.0\n|6 a from b fin 0.0 0 0\n|";

const OF_B: &[u8] =
    b"2 b from a carry 0.1 0 0 0 int 1\n3 b from a fin 0.1 0 1\n4 b take 0.1 int 1\n5 b close 0.1\n|";

// Each process is cut off at its first to sixth command.
const CUTS: u64 = 6;

// Whose process is played in the shop, and how it ends.
const TURNS: [(u16, Outcome); 7] = [
    (0, Outcome::Waits),
    (1, Outcome::Waits),
    (0, Outcome::Waits),
    (1, Outcome::Waits),
    (0, Outcome::Ended),
    (1, Outcome::Ended),
    (0, Outcome::Ended),
];

/// How many of the processes end so, up to the first that doesn't.
fn count_turns(alloc: Global, server: &RefCell<Server>, accepted: &Accepted) -> usize {
    let mut count: usize = 0;
    for (party, wanted) in &TURNS {
        if process(alloc, server, accepted, *party, None, None) != Some(Ok(*wanted)) {
            break;
        }
        count = count.saturating_add(1);
    }
    count
}

/// How many of the processes end so in the shop.
fn turns_that_go_so(alloc: Global) -> Option<usize> {
    let accepted = accepted(alloc, SHOP)?;
    let server = RefCell::new(Server::new(alloc, None));
    Some(count_turns(alloc, &server, &accepted))
}

#[test]
fn two_parties_take_turns(rt: HostRuntime) -> Result<(), Fail> {
    assert_eq!(rt; turns_that_go_so(rt.alloc()), Some(TURNS.len()));
    Ok(())
}

/// The first process of each turn is cut off at that command, and the next one goes on.
fn play_cut(alloc: Global, server: &RefCell<Server>, accepted: &Accepted, at: u64) {
    for party in [0, 1, 0] {
        let due = Some((at, Deed::Cuts(3)));
        let _ = process(alloc, server, accepted, party, None, due);
        let _ = process(alloc, server, accepted, party, None, None);
    }
}

/// Whether all lines stand in the end, once each, where processes are cut off at that command.
fn all_stands(alloc: Global, accepted: &Accepted, at: u64) -> bool {
    let server = RefCell::new(Server::new(alloc, None));
    play_cut(alloc, &server, accepted, at);
    stand(alloc, &server, b"sj:{r}:log:0", OF_A) && stand(alloc, &server, b"sj:{r}:log:1", OF_B)
}

/// How many of the cuts lose nothing, up to the first that does.
fn harmless_cuts(alloc: Global) -> Option<u64> {
    let accepted = accepted(alloc, FILE)?;
    for at in 0..CUTS {
        if !all_stands(alloc, &accepted, at) {
            return Some(at);
        }
    }
    Some(CUTS)
}

#[test]
fn a_cut_connection_loses_nothing(rt: HostRuntime) -> Result<(), Fail> {
    assert_eq!(rt; harmless_cuts(rt.alloc()), Some(CUTS));
    Ok(())
}
