//! Who a node is on a port.

use tsp_base::name::Name;
use tsp_base::place::PeerId;

/// Who a node is on a port, from a boot to the next.
#[derive(Drop)]
pub struct Me {
    /// Its own number among the port's peers.
    pub own: PeerId,
    /// Its host name.
    pub name: Name,
    /// The word of this boot.
    pub word: u64,
    /// Whether it may be master.
    pub may: bool,
    /// Whether a candidate needs more than half of the peers to win.
    pub strict: bool,
}
