//! What a builder's code calls.

use sj_base::{EndId, Msg};

/// What a builder's code calls: a step on the ends that its party holds.
#[derive(Clone, Copy, Debug, PartialEq, Eq)]
pub enum Wish {
    /// Sends a value or a label, or says whether a loop turns.
    Send { end: EndId, msg: Msg },
    /// Delegates the end on the carrier.
    Delegate { carrier: EndId, end: EndId },
    /// Takes a value or a label, or whether a loop turns.
    Take { end: EndId },
    /// Takes an end, which is held from then on.
    TakeEnd { end: EndId },
    /// Closes the end.
    Close { end: EndId },
}

/// What a builder's code calls to open a session with another party.
#[derive(Clone, Copy, Debug, PartialEq, Eq)]
pub enum OpenWish {
    /// Requests a session of the protocol at that party.
    Request { party: u16, protocol: u16 },
    /// Accepts the next session that the party requested, as one of the protocol.
    Accept { party: u16, protocol: u16 },
}

/// A session that a builder's code opened, by its own end of it, and the protocol as which it did. A
/// session of a party with itself is opened twice, once at each end.
#[derive(Clone, Copy, Debug, PartialEq, Eq)]
pub struct OpenedSession {
    pub end: EndId,
    pub protocol: u16,
}
