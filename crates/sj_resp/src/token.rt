//! Tokens of replies.

/// A reply without parts, or the head of an array. The parts of an array are
/// the replies after its head.
#[derive(Debug, Drop)]
pub enum Token {
    /// A line that says how it went.
    Simple(Vec<u8>),
    /// A line that says why the command failed.
    Failed(Vec<u8>),
    /// A number.
    Int(i64),
    /// Any bytes.
    Bulk(Vec<u8>),
    /// No bulk, or no array.
    Null,
    /// An array of that many replies, which follow.
    Array(u32),
}
