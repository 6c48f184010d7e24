//! Small logs joined.
ghost use Rattle.std.specs.Prelude.{◌≡◌};

use sj_base::NoMemory;
use sj_core::{join_logs, merge_in};
use sj_end::{Entry, Event, Line, Note};
use std::alloc::Global;
use std::test::Fail;

fn entry(clock: u64) -> Entry
    ensures { result.clock ≡ clock }
{
    Entry {
        clock,
        event: Event::Act,
        note: Note::Local,
    }
}

fn line(party: u16, clock: u64) -> Line
    ensures party { result.party ≡ party }
    ensures clock { result.entry.clock ≡ clock }
{
    Line {
        party,
        entry: entry(clock),
    }
}

// The parties and clocks of the lines, by which entries of these tests differ.
fn clocks(alloc: Global, lines: &[Line]) -> Result<Vec<(u16, u64)>, NoMemory> {
    let pairs: Vec<(u16, u64)> = lines
        .iter()
        .map(|line| (line.party, line.entry.clock))
        .collect(alloc)?;
    Ok(pairs)
}

#[test]
fn a_log_goes_between_the_lines_by_clock_then_by_party(rt: HostRuntime) -> Result<(), Fail> {
    let so_far = [line(0, 1), line(2, 3), line(0, 5)];
    let log = [entry(1), entry(3), entry(4), entry(7)];
    let lines = merge_in(rt.alloc(), &so_far, 1, &log)?;
    let want = [(0, 1), (1, 1), (1, 3), (2, 3), (1, 4), (0, 5), (1, 7)];
    assert_eq!(rt; clocks(rt.alloc(), &lines)?.as_slice(), want.as_slice());
    Ok(())
}

#[test]
fn an_empty_log_adds_nothing(rt: HostRuntime) -> Result<(), Fail> {
    let so_far = [line(0, 1), line(2, 3)];
    let lines = merge_in(rt.alloc(), &so_far, 1, &[])?;
    assert_eq!(rt; lines.as_slice(), so_far.as_slice());
    let log = [entry(1), entry(2)];
    let lines = merge_in(rt.alloc(), &[], 1, &log)?;
    assert_eq!(rt; lines.as_slice(), [line(1, 1), line(1, 2)].as_slice());
    Ok(())
}

#[test]
fn logs_are_joined_by_clock_then_by_party(rt: HostRuntime) -> Result<(), Fail> {
    let alloc = rt.alloc();
    let even = vec![in alloc; entry(2), entry(4)]?;
    let odd = vec![in alloc; entry(1), entry(4)]?;
    let same = vec![in alloc; entry(1), entry(4)]?;
    let logs = vec![in alloc; even, odd, Vec::new(alloc), same]?;
    let lines = join_logs(alloc, logs)?;
    let want = [(1, 1), (3, 1), (0, 2), (0, 4), (1, 4), (3, 4)];
    assert_eq!(rt; clocks(rt.alloc(), &lines)?.as_slice(), want.as_slice());
    Ok(())
}
