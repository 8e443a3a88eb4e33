//! A posted datagram that reaches a node.

use tsp_base::datagram::Taken;
use tsp_base::place::{Place, Port};

/// A datagram that reaches a node.
#[derive(Drop)]
pub struct Arrival {
    /// The node's number, from 0.
    pub node: u32,
    /// Its port on the network of the post.
    pub port: Port,
    /// Its sender: the node that posted it.
    pub from: Place,
    /// What its octets are read as.
    pub taken: Taken,
}
