//! The nodes of a tree, which count how often they are read.
ghost use Rattle.std.specs.Prelude.{◌≡◌, ◌+◌, ◌-◌, ◌^◌, ◌<◌, length, min, replicate, slice_index_or, slice_set, IfOk};

use std::alloc::{AllocError, Global};
use std::boxed::BoxedSlice;
use std::marker::Model;

/// Numbered nodes, each with a deadline or none, and a count of the looks at them.
///
/// A node can be read by [`Store::read`] and [`Store::root`] alone, so the count says what a search costs.
#[derive(Drop)]
pub(crate) struct Store {
    nodes: BoxedSlice<Option<u64>>,
    looks: u64,
}

impl Model for Store {
    ghost use Rattle.std.specs.Box.{boxed_slice_items};
    ghost use Rattle.tsp_sends.specs.Trees.{StoreValue};

    ghost Value = { StoreValue };

    ghost view = { λ s. record { nodes = boxed_slice_items s.nodes; looks = s.looks } };
}

impl Store {
    /// So many nodes without deadlines. Fails only if out of memory.
    pub(crate) fn new(alloc: Global, size: usize) -> Result<Store, AllocError>
        ensures { IfOk result (λ s. s ≡ record { nodes = replicate size None; looks = 0 }) }
    {
        let nodes = vec![in alloc; None; size]?;
        Ok(Store {
            nodes: nodes.into_boxed_slice(),
            looks: 0,
        })
    }

    /// The deadline at a node. Each look is counted.
    pub(crate) fn read(&mut self, node: usize) -> Option<u64>
        requires { node < length self.old.nodes }
        ensures value { result ≡ slice_index_or self.old.nodes node None }
        ensures nodes { self.new.nodes ≡ self.old.nodes }
        ensures looks { self.new.looks ≡ min (self.old.looks + 1) (2 ^ 64 - 1) }
    {
        self.looks = self.looks.saturating_add(1);
        self.nodes[node]
    }

    /// Puts a deadline, or none, at a node.
    pub(crate) fn write(&mut self, node: usize, at: Option<u64>)
        requires { node < length self.old.nodes }
        ensures nodes { self.new.nodes ≡ slice_set self.old.nodes node at }
        ensures looks { self.new.looks ≡ self.old.looks }
    {
        self.nodes[node] = at;
    }

    /// The deadline at the root, node 1. This isn't counted as a look.
    pub(crate) fn root(&self) -> Option<u64>
        requires { 1 < length self.now.nodes }
        ensures { result ≡ slice_index_or self.now.nodes 1 None }
    {
        self.nodes[1]
    }

    /// The number of looks at a node, which stays at `u64::MAX` once it is there.
    pub(crate) fn looks(&self) -> u64
        ensures { result ≡ self.now.looks }
    {
        self.looks
    }
}
