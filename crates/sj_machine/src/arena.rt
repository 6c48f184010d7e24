//! The statements of a program, each a node that names the node after it.

use sj_lang::{Expr, Scalar};

/// What a statement does. A block is named by its first node, and an empty one has none.
#[derive(Drop)]
pub enum Op {
    Send {
        end: u16,
        value: Expr,
    },
    Delegate {
        end: u16,
        sent: u16,
    },
    Take {
        end: u16,
        into: u16,
        kind: Scalar,
    },
    TakeEnd {
        end: u16,
        into: u16,
        protocol: u16,
    },
    Select {
        end: u16,
        label: u16,
    },
    Branch {
        end: u16,
        arms: Vec<ArmAt>,
    },
    OutWhile {
        end: u16,
        count: Expr,
        body: Option<usize>,
    },
    InWhile {
        end: u16,
        body: Option<usize>,
    },
    Relay {
        from: u16,
        to: u16,
        body: Option<usize>,
    },
    If {
        test: Expr,
        yes: Option<usize>,
        no: Option<usize>,
    },
    Let {
        name: u16,
        value: Expr,
    },
    Close {
        end: u16,
    },
    Request {
        end: u16,
        protocol: u16,
        party: u16,
    },
    Accept {
        end: u16,
        protocol: u16,
        party: u16,
    },
}

/// An arm of an `inbranch`.
#[derive(Clone, Copy)]
pub struct ArmAt {
    pub label: u16,
    pub body: Option<usize>,
}

/// A statement, its line, and the block of those after it.
#[derive(Drop)]
pub struct CodeNode {
    pub line: u32,
    pub op: Op,
    pub next: Option<usize>,
}
