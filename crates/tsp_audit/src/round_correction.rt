//! What is remembered of a node whose clock a round has corrected.

/// A correction of a node's clock that a master's Close sent it, as long as nothing has moved the
/// node's clock since.
#[derive(Clone, Copy)]
pub(crate) struct RoundCorrection {
    /// The master.
    pub(crate) master: u32,
    /// How many lines stand before its Close.
    pub(crate) close: usize,
    /// How often the master had booted by then.
    pub(crate) lives: usize,
    /// How often it had corrected its clock by then.
    pub(crate) corrects: usize,
    /// The true time, in microseconds, of the reading by which the node was measured.
    pub(crate) at: u64,
    /// By how much that may be wrong, in microseconds.
    pub(crate) err: i64,
}

/// What is remembered of a node.
#[derive(Clone, Copy)]
pub(crate) struct NodeState {
    /// The amounts of its corrections since its boot, in microseconds.
    pub(crate) moved: i128,
    /// How often it has booted.
    pub(crate) lives: usize,
    /// How often it has corrected its clock, over all its lives.
    pub(crate) corrects: usize,
    /// The index of the act before its last correction, if there is one.
    pub(crate) after: Option<usize>,
    /// What its last correction came of, if that is a round and it hasn't booted since.
    pub(crate) from_round: Option<RoundCorrection>,
}
