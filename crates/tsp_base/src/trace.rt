//! A line of a trace, as values.

use crate::act::Placed;

/// The values of a line of the trace.
#[derive(Drop)]
pub struct Line2 {
    /// The event's number, from 1.
    pub event: u64,
    /// The node that acts.
    pub node: u32,
    /// Its tick counter, in microseconds.
    pub tick: u64,
    /// The posted datagram's number, from 0; for any other act it isn't used.
    pub number: u64,
    /// The act and its port.
    pub placed: Placed,
}
