//! Claimed posts.

use crate::held::HeldPlaced;

/// A post that is claimed.
#[derive(Drop)]
pub struct Claimed {
    /// The number of the event of which it is claimed, from 1.
    pub event: u64,
    /// The true time of the event, in microseconds.
    pub at: u64,
    /// The node that posts.
    pub node: u32,
    /// The post, on its port.
    pub placed: HeldPlaced,
}
