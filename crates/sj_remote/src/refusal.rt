//! Why nothing more comes from a server.
use thiserror::Error;

/// Why nothing more comes over a connection.
#[derive(Clone, Copy, Debug, PartialEq, Eq, Error)]
pub enum ConnRefusal {
    /// The connection ended or broke.
    #[error("connection lost")]
    Lost,
    /// What came is no reply.
    #[error("no reply")]
    NoReply,
    #[error("out of memory")]
    NoMemory,
}
