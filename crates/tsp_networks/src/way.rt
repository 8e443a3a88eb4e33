//! When a datagram was posted, by whom and for whom.

use tsp_base::place::{Place, Port};

/// A post without its datagram.
#[derive(Clone, Copy)]
pub struct Way {
    /// The true time of the post, in microseconds.
    pub at: u64,
    /// The node that posted it.
    pub from: u32,
    /// The port on which it was posted, which gives its network.
    pub port: Port,
    /// Whom it is for.
    pub to: Place,
}
