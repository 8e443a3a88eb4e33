//! What is to come over a link in memory.
ghost use Rattle.std.specs.Prelude.{◌≡◌, ◌≤◌, List, [], ◌∷◌, ◌++◌, length, drop, map, take};
ghost use Rattle.std.specs.Prelude.{vec_len, Some, MatchOption, MatchResult};
ghost use Rattle.tsp_io.specs.Links.{Arrival, TakesDatagram, TakesNothing};
ghost use Rattle.tsp_io.specs.MemoryLinks.{arrival_of};

use crate::memory::copy_front;
use std::alloc::{AllocError, Global};
use std::marker::Model;
use tsp_base::place::Place;

/// What one receive is to get.
#[derive(Drop)]
pub(crate) enum Coming {
    /// A datagram, and its sender.
    Datagram(Place, Vec<u8>),
    /// Nothing.
    Nothing,
}

/// What the receives to come get, in order.
#[derive(Drop)]
pub(crate) struct Arrivals {
    coming: Vec<Coming>,
    at: usize,
}

impl Model for Arrivals {
    ghost Value = { List Arrival };

    ghost view = { λ a. map arrival_of (drop a.at a.coming.items) };

    ghost invariant = { λ a. a.at ≤ vec_len a.coming };
}

impl Arrivals {
    pub(crate) fn new(alloc: Global) -> Arrivals
        ensures { result ≡ [] }
    {
        Arrivals {
            coming: Vec::new(alloc),
            at: 0,
        }
    }

    /// Adds an arrival after the others. Fails only if out of memory.
    pub(crate) fn push(&mut self, coming: Coming) -> Result<(), AllocError>
        ensures { MatchResult result (λ _. self.new ≡ self.old ++ arrival_of coming ∷ [])
            (λ _. self.new ≡ self.old) }
    {
        self.coming.push(coming)?;
        Ok(())
    }

    /// Takes the next arrival; None if that is nothing, or if none is left. The first octets of a
    /// datagram, at most 512, are copied to the front of the buffer.
    pub(crate) fn take(&mut self, buf: &mut [u8]) -> Option<(Place, usize)>
        requires { length buf.old ≡ 512 }
        ensures { MatchOption result (TakesNothing (Some self.old) (Some self.new))
            (λ r. (r.1 ≤ 512) × TakesDatagram (Some self.old) (Some self.new) r.0
            (take r.1 buf.new)) }
    {
        if self.at >= self.coming.len() {
            return None;
        }
        let at = self.at;
        self.at += 1;
        match &self.coming[at] {
            Coming::Nothing => None,
            Coming::Datagram(from, octets) => {
                let count = copy_front(octets.as_slice(), buf, usize::MAX);
                Some((*from, count))
            }
        }
    }
}
