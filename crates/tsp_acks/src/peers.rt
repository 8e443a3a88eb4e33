//! The peers of a port.
ghost use Rattle.std.specs.Prelude.{◌≡◌, IfOk};
ghost use Rattle.tsp_base.specs.Peers.{IsPeers, is_among};

use std::alloc::{AllocError, Global};
use std::boxed::BoxedSlice;
use std::marker::Model;
use tsp_base::peers::place_of;
use tsp_base::place::PeerId;

/// The peers of a port, its own number among them: at most 1,000, strictly ascending.
#[derive(Drop)]
pub struct Peers {
    items: BoxedSlice<PeerId>,
}

impl Model for Peers {
    ghost use Rattle.std.specs.Prelude.{List};
    ghost use Rattle.std.specs.Box.{boxed_slice_items};
    ghost use Rattle.tsp_base.specs.declared.place.PeerId.{PeerId};
    ghost use Rattle.tsp_base.specs.Peers.{IsPeers};

    ghost Value = { List PeerId };

    ghost view = { λ p. boxed_slice_items p.items };

    ghost invariant = { λ p. IsPeers (boxed_slice_items p.items) };
}

impl Peers {
    /// These peers. Fails only if out of memory.
    pub fn new(alloc: Global, peers: &[PeerId]) -> Result<Peers, AllocError>
        requires { IsPeers peers.now }
        ensures { IfOk result (λ p. p ≡ peers.now) }
    {
        let items = BoxedSlice::from_slice(alloc, peers)?;
        Ok(Peers { items })
    }

    /// The peers, ascending.
    pub fn as_slice(&self) -> &[PeerId]
        ensures value { result.now ≡ self.now }
        ensures valid { IsPeers self.now }
    {
        self.items.as_slice()
    }

    /// Whether this is one of the peers.
    pub fn has(&self, p: PeerId) -> bool
        ensures { result ≡ is_among p self.now }
    {
        place_of(self.items.as_slice(), p).is_ok()
    }
}
