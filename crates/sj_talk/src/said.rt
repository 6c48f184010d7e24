//! What is said of a line.

use sj_base::Msg;

/// What is said of a line.
#[derive(Clone, Copy, Debug, PartialEq, Eq)]
pub enum Said {
    /// It is done.
    Fine,
    /// It is done, and took this message.
    Took(Msg),
    /// It isn't done, by the rule of that number, from 1 on.
    Refused(u8),
}
