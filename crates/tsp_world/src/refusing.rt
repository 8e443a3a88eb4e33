//! Why a world refuses an event.
ghost use Rattle.std.specs.Prelude.{◌≡◌, ◌≤◌, ℕ, List, None, Some, length, vec_len, slice_get};
ghost use Rattle.tsp_base.specs.declared.event.Event.{Event};
ghost use Rattle.tsp_run.specs.Networks.{networks, ports_on, room};
ghost use Rattle.tsp_run.specs.Refusals.{refusal, down_at, first_of, limit};
ghost use Rattle.tsp_run.specs.Run.{goes_to};
ghost use Rattle.tsp_world.specs.WorldStands.{scene_of, up_at};

use crate::world::World;
use tsp_base::event::EventFault;
use tsp_base::members::Members;
use tsp_base::place::{Place, Port};
use tsp_gateway::Gateway;
use tsp_networks::limits::limit;
use tsp_networks::refusals::absent;
use tsp_networks::{networks_of, room_of};
use tsp_run::address::Address;

/// Whether a place of the nodes has one that has booted.
fn is_up(places: &[Option<Gateway>], n: u32) -> bool
    ensures { result ≡ up_at places.now n }
{
    match places.get(n as usize) {
        Some(place) => place.is_some(),
        None => false,
    }
}

impl World {
    /// The number of nodes.
    pub(crate) fn count(&self) -> u32
        ensures count { result ≡ vec_len self.now.nodes }
        ensures few { result ≤ 64 }
    {
        self.header.nodes().len() as u32
    }

    /// The networks: those of the header, or that of all nodes where it names none.
    pub(crate) fn networks(&self) -> &[Members]
        ensures networks { result.now ≡ networks self.now.header }
        ensures few { length result.now ≤ 64 }
    {
        networks_of(&self.header, self.one.as_slice())
    }

    /// How many acts a step of this node may put.
    pub(crate) fn room(&self, node: u32) -> u64
        ensures room { result ≡ room (ports_on node (networks self.now.header)) }
        ensures few { result ≤ 200000 }
    {
        match self.rooms.get(node as usize) {
            Some(kept) => *kept,
            None => self.room_anew(node),
        }
    }

    /// The same where it isn't kept, since there is no such node.
    #[inline(never)]
    fn room_anew(&self, node: u32) -> u64
        ensures room { result ≡ room (ports_on node (networks self.now.header)) }
        ensures few { result ≤ 200000 }
    {
        room_of(self.networks(), node)
    }

    /// The first cause for which a boot is refused at a node, whose step may put so many acts.
    pub(crate) fn bars_boot(&self, at: u64, node: u32, wanted: u64) -> Option<EventFault>
        requires wanted { wanted ≡ room (ports_on node (networks self.now.header)) }
        requires few { wanted ≤ 200000 }
        ensures { (word : ℕ) → result ≡ refusal (scene_of self.now) (Event.Boot at node word) }
    {
        if at < self.last {
            return Some(EventFault::TimeBack(at, self.last));
        }
        if node >= self.count() {
            return Some(EventFault::NoNode(node, self.count()));
        }
        limit(self.events, self.posted(), Some(wanted))
    }

    /// The same of a turn.
    pub(crate) fn bars_turn(&self, at: u64, node: u32, wanted: u64) -> Option<EventFault>
        requires wanted { wanted ≡ room (ports_on node (networks self.now.header)) }
        requires few { wanted ≤ 200000 }
        ensures { result ≡ refusal (scene_of self.now) (Event.Turn at node) }
    {
        if at < self.last {
            return Some(EventFault::TimeBack(at, self.last));
        }
        if node >= self.count() {
            return Some(EventFault::NoNode(node, self.count()));
        }
        self.bars_step(node, wanted)
    }

    /// The same of octets from somebody, on a port.
    pub(crate) fn bars_bytes(
        &self,
        at: u64,
        node: u32,
        port: Port,
        from: Place,
        wanted: u64,
    ) -> Option<EventFault>
        requires wanted { wanted ≡ room (ports_on node (networks self.now.header)) }
        requires few { wanted ≤ 200000 }
        ensures { (octets : List ℕ) → result
            ≡ refusal (scene_of self.now) (Event.Bytes at node port from octets) }
    {
        if at < self.last {
            return Some(EventFault::TimeBack(at, self.last));
        }
        match absent(self.count(), self.networks(), node, port, from) {
            Some(fault) => Some(fault),
            None => self.bars_step(node, wanted),
        }
    }

    /// The same of the take of a datagram that goes to this address.
    pub(crate) fn bars_take(
        &self,
        at: u64,
        k: u64,
        address: Address,
        wanted: u64,
    ) -> Option<EventFault>
        requires goes { goes_to (networks self.now.header) (slice_get self.now.sent.items k) ≡ Some
            address }
        requires wanted { wanted ≡ room (ports_on address.node (networks self.now.header)) }
        requires few { wanted ≤ 200000 }
        ensures { result ≡ refusal (scene_of self.now) (Event.Take at k) }
    {
        if at < self.last {
            return Some(EventFault::TimeBack(at, self.last));
        }
        self.bars_step(address.node, wanted)
    }

    /// The same of the take of a datagram that goes nowhere, or that was never posted.
    pub(crate) fn bars_pass(&self, at: u64, k: u64) -> Option<EventFault>
        requires { goes_to (networks self.now.header) (slice_get self.now.sent.items k) ≡ None }
        ensures { result ≡ refusal (scene_of self.now) (Event.Take at k) }
    {
        if at < self.last {
            return Some(EventFault::TimeBack(at, self.last));
        }
        if k >= self.posted() {
            return Some(EventFault::NoDatagram(k, self.posted()));
        }
        limit(self.events, self.posted(), None)
    }

    /// `NotUp` where a node hasn't booted, else `Limit` where there is no room for its step.
    fn bars_step(&self, node: u32, wanted: u64) -> Option<EventFault>
        requires few { wanted ≤ 200000 }
        ensures { result ≡ first_of (down_at (up_at self.now.nodes.items node) node)
            (limit self.now.events (length self.now.sent.items) (Some wanted)) }
    {
        if !is_up(self.nodes.as_slice(), node) {
            return Some(EventFault::NotUp(node));
        }
        limit(self.events, self.posted(), Some(wanted))
    }
}
