//! Peers, ports and where a datagram comes from.

/// A peer's number on a port's network.
#[derive(Clone, Copy, PartialEq, Eq, Debug)]
pub struct PeerId(pub u32);

/// The number of one of a node's ports, from 0.
#[derive(Clone, Copy, PartialEq, Eq, Debug)]
pub struct Port(pub u8);

/// Who sent a datagram, or whom it is for: a peer, or an address that is none of the peers'.
#[derive(Clone, Copy, PartialEq, Eq, Debug)]
pub enum Place {
    /// One of the port's peers.
    Peer(PeerId),
    /// Somebody else.
    Stranger,
}
