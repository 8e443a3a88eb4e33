//! A posted datagram.

use tsp_base::datagram::Datagram;
use tsp_base::place::{Place, Port};

/// A posted datagram. It may be taken once, more than once or never.
#[derive(Drop)]
pub struct Posted {
    /// The true time of its post, in microseconds.
    pub at: u64,
    /// The number of the node that posted it, from 0.
    pub from: u32,
    /// The port on which it was posted, which gives its network.
    pub port: Port,
    /// Whom it is for.
    pub to: Place,
    /// What it carries.
    pub datagram: Datagram,
}
