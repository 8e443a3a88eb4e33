//! Why a configuration refuses a port.

use thiserror::Error;

/// Why a configuration refuses a port. Where several causes apply, it is the first in this list.
#[derive(Clone, Copy, PartialEq, Eq, Debug, Error)]
pub enum PortFault {
    /// There are 4 ports already.
    #[error("a node has at most 4 ports")]
    Full,
    /// Out of memory.
    #[error("out of memory")]
    OutOfMemory,
}
