//! When and where a node acts.

use crate::place::Port;

/// When and where a node acts: the two go together through each step.
#[derive(Clone, Copy, PartialEq, Eq, Debug)]
pub struct At {
    /// The step's tick: the node's own count of microseconds, from 0 to 2^61.
    pub tick: u64,
    /// The port on which it acts.
    pub port: Port,
}
