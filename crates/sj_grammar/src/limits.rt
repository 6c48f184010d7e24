//! A limit that several parsers keep.

/// Brackets and braces, or parentheses and `not`s, one inside another: in a protocol, in blocks and
/// in an expression, each on its own.
pub const MOST_OPEN: usize = 32;
