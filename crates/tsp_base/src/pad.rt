//! A desk in memory.
ghost use Rattle.std.specs.Prelude.{◌≡◌, ◌+◌, ◌<◌, ◌≤◌, ℕ, List, [], ◌∷◌, ◌++◌, OnOk, OnErr};
ghost use Rattle.std.specs.Prelude.{length, vec_len, vec_capacity};

use crate::act::{Act, Placed};
use crate::desk::Desk;
use crate::place::Port;
use std::alloc::{AllocError, Global};

/// A desk over a vector. It counts its room itself, since a vector may have more than was asked for.
#[derive(Drop)]
pub struct Pad {
    placed: Vec<Placed>,
    spare: usize,
    ghost room: { vec_len placed + spare ≤ vec_capacity placed },
}

impl Pad {
    ghost use Rattle.tsp_base.specs.Pad.{acts_of, spare_of};

    /// No acts and no room. Takes no memory.
    pub fn new(alloc: Global) -> Pad
        ensures acts { acts_of result ≡ [] }
        ensures spare { spare_of result ≡ 0 }
    {
        Pad {
            placed: Vec::new(alloc),
            spare: 0,
        }
    }

    /// The acts put so far.
    pub fn acts(&self) -> &[Placed]
        ensures { result.now ≡ acts_of self.now }
    {
        self.placed.as_slice()
    }

    /// Removes all acts. The room that they took is free again.
    pub fn clear(&mut self)
        ensures acts { acts_of self.new ≡ [] }
        ensures spare { spare_of self.new ≡ spare_of self.old + length (acts_of self.old) }
    {
        let len = self.placed.len();
        self.placed.clear();
        self.spare += len;
    }
}

impl Desk for Pad {
    ghost use Rattle.tsp_base.specs.Pad.{acts_of, spare_of};

    ghost acts = { acts_of };

    ghost spare = { spare_of };

    fn reserve(&mut self, n: usize) -> Result<(), AllocError> {
        if self.spare < n {
            self.placed.reserve(n)?;
            self.spare = n;
        }
        Ok(())
    }

    fn put(&mut self, port: Port, act: Act) {
        match self.placed.push(Placed { port, act }) {
            Ok(()) => {}
            Err(_) => unreachable!(),
        }
        self.spare -= 1;
    }
}
