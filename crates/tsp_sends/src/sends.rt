//! The open sends of a port.
ghost use Rattle.std.specs.Prelude.{◌≡◌, ◌^◌, ◌≤◌, ◌<◌, length, slice_index_or, slice_set, MatchBool, IfOk};
ghost use Rattle.std.specs.List.{Contains};
ghost use Rattle.tsp_base.specs.declared.place.PeerId.{PeerId};
ghost use Rattle.tsp_sends.specs.declared.slot.Slot.{Slot};
ghost use Rattle.tsp_base.specs.Peers.{IsAscending};
ghost use Rattle.tsp_sends.specs.Slots.{peers_of, sending_to, kind_of, has_number, SetsOnly};
ghost use Rattle.tsp_sends.specs.Repeating.{RepeatsNext, IsEarliest};

use crate::due::Due;
use crate::sending::Sending;
use crate::slots::Slots;
use crate::tree::Tree;
use std::alloc::{AllocError, Global};
use std::marker::Model;
use tsp_base::kind::Kind;
use tsp_base::message::Message;
use tsp_base::place::PeerId;

/// The open sends: a slot for each peer, in the order of the peers.
///
/// A tree has the deadlines of the slots, so that a due send is found without a look at each slot.
#[derive(Drop)]
pub struct Sends {
    slots: Slots,
    tree: Tree,
}

impl Model for Sends {
    ghost use Rattle.std.specs.Prelude.{List};
    ghost use Rattle.tsp_sends.specs.declared.slot.Slot.{Slot};
    ghost use Rattle.tsp_sends.specs.Slots.{IsSends};

    ghost Value = { List Slot };

    ghost view = { λ s. s.slots };

    ghost invariant = { λ s. IsSends s.slots s.tree.deadlines };
}

impl Sends {
    /// No open send to any of these peers.
    ///
    /// Fails only if out of memory. No later call allocates any.
    pub fn new(alloc: Global, peers: &[PeerId]) -> Result<Sends, AllocError>
        requires { IsAscending peers.now }
        ensures peers { IfOk result (λ s. peers_of s ≡ peers.now) }
        ensures sends { IfOk result (λ s. (p : PeerId) → sending_to s p ≡ None) }
    {
        let tree = Tree::new(alloc, peers.len())?;
        let slots = Slots::new(alloc, peers)?;
        Ok(Sends { slots, tree })
    }

    /// Begins a send to one of the peers at a tick: its first post. It replaces the open one.
    pub fn begin(&mut self, peer: PeerId, m: Message, tick: u64)
        requires peer { Contains (peers_of self.old) peer }
        requires tick { tick ≤ 2 ^ 61 }
        ensures sends { SetsOnly peer (Some (record { began = tick; posts = 1; message = m }))
            self.old self.new }
        ensures peers { peers_of self.new ≡ peers_of self.old }
    {
        if let Ok(place) = self.slots.place_of(peer) {
            self.fill(place, Some(Sending::begin(m, tick)));
        }
    }

    /// The kind of the open send to a peer; None where none is open.
    pub fn kind(&self, peer: PeerId) -> Option<Kind>
        ensures { result ≡ kind_of (sending_to self.now peer) }
    {
        match self.slots.place_of(peer) {
            Ok(place) => self.slots.kind(place),
            Err(_) => None,
        }
    }

    /// Ends the open send to a peer where its number is this one, and says whether it was.
    pub fn ack(&mut self, peer: PeerId, number: u16) -> bool
        ensures ends { result ≡ has_number number (sending_to self.old peer) }
        ensures sends { MatchBool result (SetsOnly peer None self.old self.new)
            (self.new ≡ self.old) }
        ensures peers { peers_of self.new ≡ peers_of self.old }
    {
        let Ok(place) = self.slots.place_of(peer) else {
            return false;
        };
        let ends = self.slots.has_number(place, number);
        if ends {
            self.fill(place, None);
        }
        ends
    }

    /// Repeats or gives up the first due send to a peer after `after`, in the order of the peers; None exactly
    /// where there is none.
    pub fn due(&mut self, after: Option<PeerId>, tick: u64) -> Option<Due>
        ensures sends { RepeatsNext after tick self.old self.new result }
        ensures peers { peers_of self.new ≡ peers_of self.old }
    {
        let from = self.slots.place_after(after);
        let place = self.tree.first_due(from, tick)?;
        let due = self.slots.repeat(place, tick);
        let at = self.slots.deadline(place);
        self.tree.put(place, at);
        due
    }

    /// The tick from which the first send is due; None exactly where no send is open.
    pub fn least(&self) -> Option<u64>
        ensures { IsEarliest (sending_to self.now) result }
    {
        self.tree.least()
    }

    /// Ends all open sends.
    pub fn clear(&mut self)
        ensures sends { (p : PeerId) → sending_to self.new p ≡ None }
        ensures peers { peers_of self.new ≡ peers_of self.old }
    {
        for place in 0..self.slots.len() {
            self.end(place);
        }
    }

    /// Ends the open send in a slot, if there is one.
    fn end(&mut self, place: usize)
        requires { place < length self.old }
        ensures { (d : Slot)
            → self.new ≡ slice_set self.old place (record (slice_index_or self.old place d)
            { sending = None }) }
    {
        match self.slots.kind(place) {
            None => {}
            Some(_) => self.empty(place),
        }
    }

    /// Ends the open send in a slot. (A call of its own, so that a slot without one needs no room for a send: each
    /// call clears that room.)
    #[inline(never)]
    fn empty(&mut self, place: usize)
        requires { place < length self.old }
        ensures { (d : Slot)
            → self.new ≡ slice_set self.old place (record (slice_index_or self.old place d)
            { sending = None }) }
    {
        self.fill(place, None)
    }

    /// Puts a send, or none, into a slot.
    fn fill(&mut self, place: usize, sending: Option<Sending>)
        requires { place < length self.old }
        ensures { (d : Slot)
            → self.new ≡ slice_set self.old place (record (slice_index_or self.old place d)
            { sending = sending }) }
    {
        self.slots.set(place, sending);
        let at = self.slots.deadline(place);
        self.tree.put(place, at);
    }
}
