//! A difference between two clocks.
/// How far another clock is ahead.
#[derive(Clone, Copy)]
pub struct Apart {
    /// How far it is ahead, in milliseconds, from -64,800,000 to 64,800,000.
    pub diff: i64,
    /// By how much that may be wrong, in milliseconds.
    pub err: i64,
    /// The round trip, in milliseconds.
    pub trip: u32,
}
