//! A world's events, with a call for each kind, which makes no `Event`. Each answers as `World::event` does.
ghost use Rattle.std.specs.Prelude.{◌≡◌, ◌≤◌, ◌<◌, ℕ, List, None, Some, MatchResult, slice_get};
ghost use Rattle.tsp_base.specs.declared.event.Event.{Event};
ghost use Rattle.tsp_base.specs.declared.place.Place.{Place};
ghost use Rattle.tsp_codec.specs.Numbers.{octet_at};
ghost use Rattle.tsp_codec.specs.Taken.{taken_of};
ghost use Rattle.tsp_run.specs.Networks.{networks, address_of};
ghost use Rattle.tsp_run.specs.Run.{goes_to};
ghost use Rattle.tsp_world.specs.WorldStands.{Occurs, Declines};

use crate::world::World;
use tsp_base::datagram::Taken;
use tsp_base::event::EventFault;
use tsp_base::place::{PeerId, Place, Port};
use tsp_codec::read;
use tsp_networks::address_of;
use tsp_networks::parcel::Parcel;
use tsp_run::address::Address;

impl World {
    /// A node boots with a word.
    pub fn boot(&mut self, at: u64, node: u32, word: u64) -> Result<(), EventFault>
        requires { at ≤ 1000000000000000 }
        ensures { MatchResult result (λ _. Occurs (Event.Boot at node word) self.old self.new)
            (Declines (Event.Boot at node word) self.old self.new) }
    {
        let wanted = self.room(node);
        if let Some(fault) = self.bars_boot(at, node, wanted) {
            return Err(fault);
        }
        if self.make_room(wanted).is_err() {
            return Err(EventFault::OutOfMemory);
        }
        match self.start(at, node, word) {
            Ok(()) => Ok(()),
            Err(_) => Err(EventFault::OutOfMemory),
        }
    }

    /// A node looks at its timers.
    #[inline(always)]
    pub fn turn(&mut self, at: u64, node: u32) -> Result<(), EventFault>
        requires { at ≤ 1000000000000000 }
        ensures { MatchResult result (λ _. Occurs (Event.Turn at node) self.old self.new)
            (Declines (Event.Turn at node) self.old self.new) }
    {
        let wanted = self.room(node);
        if let Some(fault) = self.bars_turn(at, node, wanted) {
            return Err(fault);
        }
        if self.idles(at, node) {
            self.pass(at);
            return Ok(());
        }
        if self.make_room(wanted).is_err() {
            return Err(EventFault::OutOfMemory);
        }
        self.look(at, node);
        Ok(())
    }

    /// A posted datagram reaches its addressee, or nobody if it has none. It is put together in the parcel.
    #[inline(always)]
    pub fn take(&mut self, at: u64, k: u64, parcel: &mut Parcel) -> Result<(), EventFault>
        requires { at ≤ 1000000000000000 }
        ensures { MatchResult result (λ _. Occurs (Event.Take at k) self.old self.new)
            (Declines (Event.Take at k) self.old self.new) }
    {
        match self.address(k) {
            Some(address) => self.take_at(at, k, address, parcel),
            None => self.take_nowhere(at, k),
        }
    }

    /// A node takes on a port what was read of octets from somebody.
    #[inline(always)]
    pub fn hand(
        &mut self,
        at: u64,
        node: u32,
        port: Port,
        from: Place,
        taken: &Taken,
    ) -> Result<(), EventFault>
        requires { at ≤ 1000000000000000 }
        ensures { (octets : List ℕ) → ((i : ℕ) → octet_at octets i < 256)
            → taken_of octets ≡ taken.now
            → MatchResult result (λ _. Occurs (Event.Bytes at node port from octets) self.old
            self.new) (Declines (Event.Bytes at node port from octets) self.old self.new) }
    {
        let wanted = self.room(node);
        if let Some(fault) = self.bars_bytes(at, node, port, from, wanted) {
            return Err(fault);
        }
        if self.make_room(wanted).is_err() {
            return Err(EventFault::OutOfMemory);
        }
        self.receive(at, node, port, from, taken);
        Ok(())
    }

    /// Octets reach a node on a port.
    pub fn bytes(
        &mut self,
        at: u64,
        node: u32,
        port: Port,
        from: Place,
        octets: &[u8],
    ) -> Result<(), EventFault>
        requires { at ≤ 1000000000000000 }
        ensures { MatchResult result (λ _. Occurs (Event.Bytes at node port from octets.now) self.old
            self.new) (Declines (Event.Bytes at node port from octets.now) self.old self.new) }
    {
        let taken = read(octets);
        self.hand(at, node, port, from, &taken)
    }

    /// Where the datagram with this number goes: to a port of its addressee; None where it goes nowhere.
    #[inline(always)]
    fn address(&self, k: u64) -> Option<Address>
        ensures { result ≡ goes_to (networks self.now.header) (slice_get self.now.sent.items k) }
    {
        let way = self.sent.way(k)?;
        match way.to {
            Place::Peer(p) => self.address_by(way.from, way.port, p),
            Place::Stranger => None,
        }
    }

    /// Where a datagram goes that a node posts on a port to a peer.
    #[inline(always)]
    fn address_by(&self, from: u32, port: Port, p: PeerId) -> Option<Address>
        ensures { result ≡ address_of (networks self.now.header) from port (Place.Peer p) }
    {
        address_of(self.networks(), from, port, Place::Peer(p))
    }

    /// A posted datagram reaches its addressee at this address, in a parcel.
    #[inline(always)]
    fn take_at(
        &mut self,
        at: u64,
        k: u64,
        address: Address,
        parcel: &mut Parcel,
    ) -> Result<(), EventFault>
        requires time { at ≤ 1000000000000000 }
        requires goes { goes_to (networks self.old.header) (slice_get self.old.sent.items k) ≡ Some
            address }
        ensures { MatchResult result (λ _. Occurs (Event.Take at k) self.old self.new)
            (Declines (Event.Take at k) self.old self.new) }
    {
        let wanted = self.room(address.node);
        if let Some(fault) = self.bars_take(at, k, address, wanted) {
            return Err(fault);
        }
        if self.make_room(wanted).is_err() {
            return Err(EventFault::OutOfMemory);
        }
        self.deliver(at, k, address, parcel);
        Ok(())
    }

    /// A posted datagram reaches nobody.
    fn take_nowhere(&mut self, at: u64, k: u64) -> Result<(), EventFault>
        requires { goes_to (networks self.old.header) (slice_get self.old.sent.items k) ≡ None }
        ensures { MatchResult result (λ _. Occurs (Event.Take at k) self.old self.new)
            (Declines (Event.Take at k) self.old self.new) }
    {
        if let Some(fault) = self.bars_pass(at, k) {
            return Err(fault);
        }
        self.pass(at);
        Ok(())
    }
}
