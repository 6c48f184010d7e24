//! What a walk through a file knows of it, and the fault at which it stops.

use crate::marks::{Part, Span};
use crate::pieces::{Piece, put_pieces};
use sj_base::NoMemory;
use sj_check::CheckRule;
use sj_lang::{File, Proto};
use std::alloc::{AllocError, AllocFailed, Global};

/// The file that is walked through.
#[derive(Clone, Copy)]
pub(crate) struct Context<'a> {
    pub alloc: Global,
    pub file: &'a File,
}

/// Where a part begins: its line, and how many parts of its sort begin on that line up to it.
#[derive(Clone, Copy)]
pub(crate) struct Site {
    pub line: u32,
    pub part: Part,
    pub nth: usize,
}

/// A fault, with its place and what was known there.
#[derive(Drop)]
pub(crate) struct Finding {
    pub rule: CheckRule,
    pub site: Site,
    pub mark: Span,
    pub other: Option<Span>,
    pub knew: Vec<u8>,
}

/// Why a walk stops.
#[derive(Drop)]
pub(crate) enum Exit {
    Found(Finding),
    NoMemory,
}

impl From<NoMemory> for Exit {
    fn from(_: NoMemory) -> Self {
        Exit::NoMemory
    }
}

impl From<AllocError> for Exit {
    fn from(_: AllocError) -> Self {
        Exit::NoMemory
    }
}

impl<T: Drop> From<AllocFailed<T>> for Exit {
    fn from(_: AllocFailed<T>) -> Self {
        Exit::NoMemory
    }
}

/// Counts the parts that begin on one line.
#[derive(Clone, Copy)]
pub(crate) struct Seen {
    pub line: u32,
    pub count: usize,
}

impl Seen {
    /// The place of a part that begins on that line.
    pub fn enter(&mut self, part: Part, line: u32) -> Site {
        if line == self.line {
            self.count = self.count.saturating_add(1);
        }
        Site {
            line,
            part,
            nth: self.count,
        }
    }
}

impl Context<'_> {
    /// The fault of that rule, and what was known in these pieces.
    pub fn stop(&self, rule: CheckRule, site: Site, mark: Span, pieces: &[Piece<'_>]) -> Exit {
        let mut knew = Vec::new(self.alloc);
        match put_pieces(self.alloc, &mut knew, &self.file.names, pieces) {
            Ok(()) => stop_with(rule, site, mark, knew),
            Err(NoMemory) => Exit::NoMemory,
        }
    }

    /// The body of the protocol of that name.
    pub fn body(&self, name: u16) -> Option<&Proto> {
        for protocol in &self.file.protocols {
            if protocol.name == name {
                return Some(&protocol.body);
            }
        }
        None
    }

    /// Whether a party has that name.
    pub fn has_party(&self, name: u16) -> bool {
        for party in &self.file.parties {
            if party.name == name {
                return true;
            }
        }
        false
    }
}

/// The fault of that rule, and what was known.
pub(crate) fn stop_with(rule: CheckRule, site: Site, mark: Span, knew: Vec<u8>) -> Exit {
    Exit::Found(Finding {
        rule,
        site,
        mark,
        other: None,
        knew,
    })
}
