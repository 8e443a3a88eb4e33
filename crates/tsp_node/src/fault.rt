//! Why a node doesn't boot.

use thiserror::Error;

/// Why a node doesn't boot. Where several causes apply, it is the first in this list.
#[derive(Clone, Copy, Debug, Error)]
pub enum BootFault {
    /// There are more than 1,000 peers, they aren't strictly ascending, or the node isn't one of them.
    #[error("the peers aren't at most 1,000 in ascending order with the node among them")]
    Peers,
    /// The wall clock isn't strictly between -2^31 and 2^31 seconds.
    #[error("the wall clock is out of its range")]
    Range,
    /// Out of memory.
    #[error("out of memory")]
    OutOfMemory,
}
