//! Where a posted datagram goes.

use tsp_base::place::Port;

/// Where a posted datagram goes: a node, and one of its ports.
#[derive(Clone, Copy)]
pub struct Address {
    /// The node's number, from 0.
    pub node: u32,
    /// Its port on the network of the post.
    pub port: Port,
}
