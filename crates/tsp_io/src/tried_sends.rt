//! The sends over a link in memory.
ghost use Rattle.std.specs.Prelude.{◌≡◌, ◌<◌, List, [], ◌∷◌, ◌++◌, length, map, Some, MatchResult, slice_get};
ghost use Rattle.tsp_io.specs.Links.{Tried};
ghost use Rattle.tsp_io.specs.MemoryLinks.{tried_of};

use std::alloc::{AllocError, Global};
use std::marker::Model;
use tsp_base::place::Place;

/// A send that was tried.
#[derive(Drop)]
pub(crate) struct TriedSend {
    /// To whom.
    pub to: Place,
    /// The datagram.
    pub octets: Vec<u8>,
}

/// The sends that were tried, in their order.
#[derive(Drop)]
pub(crate) struct TriedSends {
    sends: Vec<TriedSend>,
}

impl Model for TriedSends {
    ghost Value = { List Tried };

    ghost view = { λ t. map tried_of t.sends.items };
}

impl TriedSends {
    pub(crate) fn new(alloc: Global) -> TriedSends
        ensures { result ≡ [] }
    {
        TriedSends {
            sends: Vec::new(alloc),
        }
    }

    /// Adds a send. Fails only if out of memory.
    pub(crate) fn push(&mut self, alloc: Global, to: Place, octets: &[u8]) -> Result<(), AllocError>
        ensures { MatchResult result (λ _. self.new ≡ self.old ++ (to, octets.now) ∷ [])
            (λ _. self.new ≡ self.old) }
    {
        let octets = Vec::from_slice(alloc, octets)?;
        self.sends.push(TriedSend { to, octets })?;
        Ok(())
    }

    pub(crate) fn len(&self) -> usize
        ensures { result ≡ length self.now }
    {
        self.sends.len()
    }

    /// To whom the send with this number went, and its datagram; sends are counted from 0.
    pub(crate) fn get(&self, i: usize) -> (Place, &[u8])
        requires { i < length self.now }
        ensures { slice_get self.now i ≡ Some (result.0, result.1.now) }
    {
        let send = &self.sends[i];
        (send.to, send.octets.as_slice())
    }
}
