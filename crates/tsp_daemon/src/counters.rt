//! How far the daemon has come.

/// What the daemon counts over its turns.
#[derive(Clone, Copy)]
pub(crate) struct Counters {
    /// How many turns were taken.
    pub turns: u64,
    /// How many datagrams were posted; they are numbered from 0.
    pub posts: u64,
}
