//! What a link in memory notes of its binds and receives.
ghost use Rattle.std.specs.Prelude.{◌≡◌, ℕ, List, [], Option, Some, map};
ghost use Rattle.std.specs.Option.{option_map};
ghost use Rattle.tsp_io.specs.Links.{Binding, NotesReceive};
ghost use Rattle.tsp_io.specs.MemoryLinks.{binding_of};

use crate::addr::Addr;
use std::alloc::Global;
use std::marker::Model;

/// How long each receive was to wait, in microseconds; None if there was no memory to note one of
/// them.
#[derive(Drop)]
pub(crate) struct NotedWaits {
    waits: Option<Vec<u64>>,
}

impl Model for NotedWaits {
    ghost Value = { Option (List ℕ) };

    ghost view = { λ w. option_map (λ waits. waits.items) w.waits };
}

impl NotedWaits {
    /// No receive was made.
    pub(crate) fn new(alloc: Global) -> NotedWaits
        ensures { result ≡ Some [] }
    {
        NotedWaits {
            waits: Some(Vec::new(alloc)),
        }
    }

    /// Adds a receive that was to wait so long.
    pub(crate) fn note(&mut self, wait: u64)
        ensures { NotesReceive self.old self.new wait }
    {
        if let Some(waits) = &mut self.waits {
            if waits.push(wait).is_err() {
                self.waits = None;
            }
        }
    }

    /// The waits so far, in their order.
    pub(crate) fn all(&self) -> Option<&[u64]>
        ensures { option_map (λ waits. waits.now) result ≡ self.now }
    {
        match &self.waits {
            Some(waits) => Some(waits.as_slice()),
            None => None,
        }
    }
}

/// A bind: the address of this machine, and the peers' in their order.
#[derive(Drop)]
pub(crate) struct NotedBind {
    /// The address of this machine.
    pub local: Addr,
    /// The peers' addresses.
    pub peers: Vec<Addr>,
}

/// What the link was bound to, bind by bind; None if there was no memory to note one of them.
#[derive(Drop)]
pub(crate) struct NotedBinds {
    alloc: Global,
    binds: Option<Vec<NotedBind>>,
}

impl Model for NotedBinds {
    ghost Value = { Option (List Binding) };

    ghost view = { λ b. option_map (λ binds. map binding_of binds.items) b.binds };
}

impl NotedBinds {
    /// No bind was made.
    pub(crate) fn new(alloc: Global) -> NotedBinds
        ensures { result ≡ Some [] }
    {
        NotedBinds {
            alloc,
            binds: Some(Vec::new(alloc)),
        }
    }

    /// Adds a bind.
    pub(crate) fn note(&mut self, local: Addr, peers: &[Addr])
        ensures { NotesReceive self.old self.new (record { local = local; peers = peers.now }) }
    {
        let Ok(peers) = Vec::from_slice(self.alloc, peers) else {
            self.binds = None;
            return;
        };
        if let Some(binds) = &mut self.binds {
            if binds.push(NotedBind { local, peers }).is_err() {
                self.binds = None;
            }
        }
    }
}
