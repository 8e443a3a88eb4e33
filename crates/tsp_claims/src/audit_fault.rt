//! Why claimed lines aren't taken in.

use thiserror::Error;

/// Why the lines that are claimed of an event aren't taken in.
#[derive(Clone, Copy, PartialEq, Eq, Debug, Error)]
pub enum AuditFault {
    /// The line with this index, from 0, is the first that doesn't fit; or it is their number,
    /// where all fit but the event lacks something.
    #[error("line {0} doesn't fit")]
    History(usize),
    /// Memory was refused.
    #[error("out of memory")]
    OutOfMemory,
}
