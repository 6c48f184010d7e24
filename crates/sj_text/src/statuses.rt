//! The statuses with which a program ends that doesn't write its text.

/// A write failed.
pub const WRITE_FAULT: u8 = 10;

/// There was no memory for the text.
pub const NO_MEMORY: u8 = 11;
