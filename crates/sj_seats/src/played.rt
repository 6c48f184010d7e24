//! A core world with seats as it lies in memory.

use sj_end::Line;
use sj_node::Node;
use sj_plain::SharedFile;
use sj_seat::{HeldEnd, OpenedSession, Openings};
use sj_table::Table;
use std::alloc::Global;

/// What the code of a party holds: its ends, each at its place, the sessions that it may open, and
/// how many calls it made.
#[derive(Drop)]
pub struct Chair {
    pub ends: Vec<HeldEnd>,
    pub may: Openings,
    pub calls: u32,
}

/// A file, the nodes of its parties over one table, what the codes of some of them hold, as which
/// protocols each party's code opens its sessions, and what happened so far.
#[derive(Drop)]
pub struct PlayedWorld {
    pub alloc: Global,
    pub kept: SharedFile,
    pub table: Table,
    pub nodes: Vec<Node>,
    pub chairs: Vec<Option<Chair>>,
    pub opened: Vec<Vec<OpenedSession>>,
    pub history: Vec<Line>,
}
