//! A party that code plays over lanes of bytes.

use sj_engine::{ByteIn, ByteOut};
use sj_seat::Guest;
use sj_work::NoGate;

/// A party that code plays over lanes of bytes, and that shows its events to nobody.
pub(crate) type Seat<'a> = Guest<'a, ByteOut, ByteIn, NoGate>;
