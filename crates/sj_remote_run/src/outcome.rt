//! How a party stands when its process ends well.
use thiserror::Error;

/// How a party stands when its process ends well.
#[derive(Clone, Copy, Debug, PartialEq, Eq, Error)]
pub enum Outcome {
    /// Its program has ended, and nothing is left to do.
    #[error("ended")]
    Ended,
    /// It waits, or keeps records for others, and nothing came for as long as it was to wait.
    #[error("waits")]
    Waits,
    /// It is at a limit, and nothing came for as long.
    #[error("limit")]
    Limit,
}
