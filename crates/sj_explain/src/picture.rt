//! Who waits for whom, as an SVG: a line for each party, and an arrow from each that waits.

use crate::waits::{Wait, put_cause, waits_of};
use sj_base::NoMemory;
use sj_lang::File;
use sj_plain::Plain;
use sj_proto::put_word;
use sj_text::{put, put_number};
use std::alloc::Global;

/// Sizes in a picture's own unit: to the first line, from each line to the next, and from each
/// arrow to the next.
const LEFT: u64 = 80;

const GAP: u64 = 160;

const ROW: u64 = 40;

const STYLE: &[u8] =
    b"<style>text{font:13px sans-serif;fill:#222}.name{font-weight:bold;text-anchor:middle}\
    .wait{text-anchor:middle}path{fill:none}.party{stroke:#bbb;stroke-width:2}\
    .arrow{stroke:#b33;stroke-width:1.5;marker-end:url(#tip)}</style>\
    <defs><marker id='tip' viewBox='0 0 8 8' refX='8' refY='4' markerWidth='8' markerHeight='8' orient='auto'>\
    <path d='M 0 0 L 8 4 L 0 8 z' style='fill:#b33'/></marker></defs>\n";

/// What stands after `<svg `. Names have letters, digits and `_` alone, so no sign of the format.
pub(crate) fn put_picture(
    alloc: Global,
    text: &mut Vec<u8>,
    file: &File,
    plain: &Plain,
) -> Result<(), NoMemory> {
    let waits = waits_of(alloc, file, plain)?;
    let width = x_of(file.parties.len()).saturating_sub(LEFT);
    let height = y_of(waits.len());
    put(text, b"xmlns='http://www.w3.org/2000/svg' width='")?;
    put_number(text, width)?;
    put(text, b"' height='")?;
    put_number(text, height)?;
    put(text, b"' viewBox='0 0 ")?;
    put_number(text, width)?;
    put(text, b" ")?;
    put_number(text, height)?;
    put(text, b"'>\n")?;
    put(text, STYLE)?;
    for (i, party) in file.parties.iter().enumerate() {
        put_line(text, file, i, party.name, height)?;
    }
    for (k, wait) in waits.iter().enumerate() {
        put_arrow(alloc, text, file, plain, k, *wait)?;
    }
    put(text, b"</svg>\n")
}

fn x_of(party: usize) -> u64 {
    GAP.saturating_mul(party as u64).saturating_add(LEFT)
}

fn y_of(wait: usize) -> u64 {
    ROW.saturating_mul(wait as u64).saturating_add(70)
}

// A party's name, and its line below.
fn put_line(
    text: &mut Vec<u8>,
    file: &File,
    i: usize,
    name: u16,
    height: u64,
) -> Result<(), NoMemory> {
    put(text, b"<text class='name' x='")?;
    put_number(text, x_of(i))?;
    put(text, b"' y='24'>")?;
    put_word(text, &file.names, name)?;
    put(text, b"</text><path class='party' d='M ")?;
    put_number(text, x_of(i))?;
    put(text, b" 34 V ")?;
    put_number(text, height.saturating_sub(12))?;
    put(text, b"'/>\n")
}

// An arrow from the party that waits to the one for which it waits, with the end on which it does.
fn put_arrow(
    alloc: Global,
    text: &mut Vec<u8>,
    file: &File,
    plain: &Plain,
    k: usize,
    wait: Wait,
) -> Result<(), NoMemory> {
    let from = x_of(wait.party as usize);
    let to = match wait.on {
        Some(on) => x_of(on as usize),
        None => from.saturating_add(GAP / 2),
    };
    put(text, b"<path class='arrow' d='M ")?;
    put_number(text, from)?;
    put(text, b" ")?;
    put_number(text, y_of(k))?;
    put(text, if from == to { b" h 24 v 8 H " } else { b" H " })?;
    put_number(text, to)?;
    put(text, b"'/><text class='wait' x='")?;
    put_number(text, from.saturating_add(to) / 2)?;
    put(text, b"' y='")?;
    put_number(text, y_of(k).saturating_sub(6))?;
    put(text, b"'>")?;
    put_cause(alloc, text, file, plain, wait.cause)?;
    put(text, b"</text>\n")
}
