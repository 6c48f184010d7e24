//! The limits of what a party does, and the numbers of the sessions that it opens.
ghost use Rattle.std.specs.Prelude.{◌≡◌};
ghost use Rattle.sj_semantics.specs.Requests as requests;

/// The most steps that a party does.
pub const MAX_STEPS: u32 = 10_000;

/// The most times that an end is delegated.
pub const MAX_HOPS: u8 = 100;

/// The most sessions that a party opens.
pub const MAX_REQUESTS: u8 = 100;

/// The first number of a session that is opened at run time; those of connections are smaller.
pub const FIRST_OPENED: u32 = 64;

/// The number of the session that the party opens after so many others.
pub fn opened_number(party: u16, after: u8) -> u32
    ensures { result ≡ requests.opened_number party after }
{
    FIRST_OPENED + MAX_REQUESTS as u32 * party as u32 + after as u32
}
