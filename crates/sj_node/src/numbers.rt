//! The numbers of sessions that are opened at run time.
ghost use Rattle.std.specs.Prelude.{◌≡◌};
ghost use Rattle.sj_node.specs.Play.{is_number};
ghost use Rattle.sj_rules.specs.Opened as rules;

use sj_machine::{FIRST_OPENED, MAX_REQUESTS, opened_number};

/// Whether the session is one of those that the party can open.
pub(crate) fn is_opened_by(party: u16, sess: u32) -> bool
    ensures { result ≡ rules.is_opened_by party sess }
{
    sess >= FIRST_OPENED && (sess - FIRST_OPENED) / MAX_REQUESTS as u32 == party as u32
}

/// Whether the session is one that some of so many parties can open.
pub(crate) fn is_openable(parties: u16, sess: u32) -> bool
    ensures { result ≡ rules.is_openable parties sess }
{
    FIRST_OPENED <= sess && sess < opened_number(parties, 0)
}

/// Whether the session is one of so many connections, or one that some of so many parties can open.
pub(crate) fn is_session(connects: usize, parties: u16, sess: u32) -> bool
    ensures { result ≡ is_number connects parties sess }
{
    (sess as usize) < connects || is_openable(parties, sess)
}
