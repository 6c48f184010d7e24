//! The last clock, and the largest connection number.

/// Work stops at this clock.
pub const CLOCK_END: u64 = 1 << 62;

/// A connection's number is at most this.
pub const MAX_CONN: u32 = 1_000;
