//! The numbers of the wire format.
/// The version byte of all kinds but Open.
pub(crate) const VERSION: u8 = 1;
/// And that of an Open.
pub(crate) const OPEN_VERSION: u8 = 2;
/// What follows the length of a frame has at least so many bytes.
pub(crate) const LEAST_LENGTH: u32 = 15;
/// And at most so many.
pub(crate) const MOST_LENGTH: u32 = 2_097_152;
/// The last clock of a frame.
pub(crate) const LAST_CLOCK: u64 = 4_611_686_018_427_387_903;

pub(crate) const LIMIT_OF_CONNS: u32 = 1000;

pub(crate) const LIMIT_OF_MESSAGES: u32 = 1_000_000;

pub(crate) const LIMIT_OF_HOPS: u8 = 100;
/// A Give has at most so many cached messages.
pub(crate) const MOST_CACHED: u32 = 200_000;
