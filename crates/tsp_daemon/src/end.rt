//! How the daemon's session ends.

/// How a session ends.
#[derive(Clone, Copy, PartialEq, Eq, Debug)]
pub enum ServeEnd {
    /// All turns were taken.
    Done,
    /// A receive failed.
    LinkFault,
    /// A write failed.
    WriteFault,
    /// Out of memory.
    OutOfMemory,
}
