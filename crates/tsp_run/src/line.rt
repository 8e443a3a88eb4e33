//! A line of the trace, as values.

use tsp_base::act::Placed;

/// An act, the event at which it was done, and the number of the datagram that it posted.
#[derive(Drop)]
pub struct Line {
    /// The event's number, from 1.
    pub event: u64,
    /// The number of the node that acted, from 0.
    pub node: u32,
    /// The node's tick: its own count of microseconds.
    pub tick: u64,
    /// The number of the posted datagram, counted from 0 over all nodes; None where the act is no post.
    pub number: Option<u64>,
    /// The act and its port.
    pub placed: Placed,
}
