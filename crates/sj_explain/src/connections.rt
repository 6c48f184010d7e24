//! The connections of an accepted file, and how their two protocols meet.

use crate::pieces::Piece::{Number, Said, Word};
use crate::pieces::put_pieces;
use sj_base::NoMemory;
use sj_lang::{Connect, EndDecl, File, Proto, dual, same};
use sj_proto::print_protocol;
use sj_text::put;
use std::alloc::Global;

/// A part for each connection: its ends, its protocols, and whether these are duals.
pub(crate) fn put_connections(
    alloc: Global,
    text: &mut Vec<u8>,
    file: &File,
) -> Result<(), NoMemory> {
    for (i, connect) in file.connects.iter().enumerate() {
        put_connection(alloc, text, file, i, connect)?;
    }
    Ok(())
}

fn put_connection(
    alloc: Global,
    text: &mut Vec<u8>,
    file: &File,
    i: usize,
    connect: &Connect,
) -> Result<(), NoMemory> {
    let lead = [
        Said(b"\nsession "),
        Number(i as u64),
        Said(b", connected on line "),
        Number(u64::from(connect.line)),
        Said(b"\n"),
    ];
    put_pieces(alloc, text, &file.names, &lead)?;
    put_end(alloc, text, file, connect.first)?;
    put_end(alloc, text, file, connect.second)?;
    match (body_of(file, connect.first), body_of(file, connect.second)) {
        (Some(first), Some(second)) if same(&dual(alloc, first)?, second) => {
            put(text, b"  the two are duals\n")
        }
        _ => {
            put(
                text,
                b"  the two meet in width: a branching offers more labels than the other side selects\n",
            )
        }
    }
}

fn put_end(alloc: Global, text: &mut Vec<u8>, file: &File, end: EndDecl) -> Result<(), NoMemory> {
    let lead = [
        Said(b"  "),
        Word(end.party),
        Said(b" "),
        Word(end.name),
        Said(b" "),
        Word(end.protocol),
        Said(b" { "),
    ];
    put_pieces(alloc, text, &file.names, &lead)?;
    if let Some(body) = body_of(file, end) {
        print_protocol(text, &file.names, body)?;
    }
    put(text, b" }\n")
}

fn body_of(file: &File, end: EndDecl) -> Option<&Proto> {
    for protocol in &file.protocols {
        if protocol.name == end.protocol {
            return Some(&protocol.body);
        }
    }
    None
}
