//! Times in nanoseconds.

use std::time::{Clock, Instant};

/// The nanoseconds since then; 0 where no clock can be read.
pub(crate) fn nanos_since<R: Clock>(clock: &R, from: &Option<Instant>) -> u64 {
    let Some(from) = from else {
        return 0;
    };
    let Ok(time) = from.elapsed(clock) else {
        return 0;
    };
    let whole = time.as_secs().saturating_mul(1_000_000_000);
    whole.saturating_add(u64::from(time.subsec_nanos()))
}

/// Now, where a clock can be read.
pub(crate) fn now<R: Clock>(clock: &R) -> Option<Instant> {
    Instant::now(clock).ok()
}
