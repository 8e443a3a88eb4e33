//! An open exchange of stamps.

/// A stamp request that wasn't answered yet.
#[derive(Clone, Copy, Default, PartialEq, Eq, Debug)]
pub struct Exchange {
    /// The word that the request carries: that of its sender's boot.
    pub word: u64,
    /// The counter that the request carries.
    pub counter: u64,
    /// The sender's clock when the request was sent, in microseconds.
    pub a: i64,
}
