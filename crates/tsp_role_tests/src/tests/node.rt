//! A node with one port, step by step.
ghost use Rattle.std.specs.Prelude.{◌≡◌, IfOk, IfSome};
ghost use Rattle.std.specs.List.{Contains};
ghost use Rattle.tsp_base.specs.Peers.{IsPeers};

use std::alloc::Global;
use std::test::Fail;
use tsp_acks::me::Me;
use tsp_acks::station::Station;
use tsp_base::name::Name;
use tsp_base::pad::Pad;
use tsp_base::place::{PeerId, Port};
use tsp_clock::clock::Clock;
use tsp_slave::last::Last;

pub(crate) const PORT: Port = Port(0);

/// A node with one port, and the acts of its last step.
#[derive(Drop)]
pub(crate) struct Node {
    pub(crate) station: Station,
    pub(crate) last: Last,
    pub(crate) clock: Clock,
    pub(crate) pad: Pad,
}

impl Node {
    /// A node called `a` that booted at tick 0 with the word 7, which is this peer of these.
    pub(crate) fn new(alloc: Global, own: PeerId, peers: &[PeerId]) -> Result<Node, Fail>
        requires { IsPeers peers.now }
        ensures { IfOk result (λ n. n.clock.at ≡ 0) }
    {
        let clock = Clock::boot(0, 0, 7)?;
        let me = Me {
            own,
            name: Name::of(b"a")?,
            word: 7,
            may: true,
            strict: false,
        };
        Ok(Node {
            station: Station::new(alloc, me, peers, 0)?,
            last: Last::new(),
            clock,
            pad: Pad::new(alloc),
        })
    }

    /// The peer at a place among the port's.
    pub(crate) fn peer_at(&self, place: usize) -> Option<PeerId>
        ensures { IfSome result (λ p. Contains self.now.station.peers p) }
    {
        let peers = self.station.peers();
        if place >= peers.len() {
            return None;
        }
        Some(peers[place])
    }
}
