//! Why a line isn't read.

use thiserror::Error;

/// Why a line isn't read.
#[derive(Clone, Copy, PartialEq, Eq, Debug, Error)]
pub enum LineFault {
    /// The grammar doesn't allow the line.
    #[error("the line isn't in its grammar")]
    Bad,
}
