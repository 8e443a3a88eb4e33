//! What a node is on a port.

use crate::place::PeerId;

/// The role of a node on a port.
#[derive(Clone, Copy, PartialEq, Eq, Debug)]
pub enum Role {
    /// In the quiet time after a boot.
    Starting,
    /// A slave that follows nobody.
    Loose,
    /// A slave of this master.
    Follow(PeerId),
    /// A candidate: it stands for election.
    Candidate,
    /// Leads the network.
    Master,
}
