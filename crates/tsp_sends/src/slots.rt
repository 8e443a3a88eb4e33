//! The slots of a port's peers.
ghost use Rattle.std.specs.Prelude.{◌≡◌, ◌<◌, length, map, vec_capacity, slice_index_or, slice_set, IfOk};
ghost use Rattle.std.specs.Option.{option_map, option_and_then};
ghost use Rattle.tsp_sends.specs.declared.slot.Slot.{Slot};
ghost use Rattle.tsp_base.specs.Peers.{IsAscending};
ghost use Rattle.tsp_sends.specs.Slots.{peers_of, empty_slot, deadline_in, kind_of, has_number};
ghost use Rattle.tsp_sends.specs.Held.{slots_of, AreHeld};
ghost use Rattle.tsp_sends.specs.Repeating.{repeated, kept, IsPlaceOf, IsFirstAfter};

use crate::due::Due;
use crate::sending::Sending;
use crate::slot::Slot;
use std::alloc::{AllocError, Global};
use std::boxed::BoxedSlice;
use std::marker::Model;
use tsp_base::kind::Kind;
use tsp_base::peers::place_of;
use tsp_base::place::PeerId;

/// A slot for each peer, in the order of the peers.
///
/// The list of slots has room for all peers, but ends with the last one to whom a send began; the slots of the
/// others are empty. So a port that begins no send never touches the memory of its slots.
#[derive(Drop)]
pub(crate) struct Slots {
    peers: BoxedSlice<PeerId>,
    held: Vec<Slot>,
}

impl Model for Slots {
    ghost use Rattle.std.specs.Prelude.{List, vec_capacity};
    ghost use Rattle.std.specs.Box.{boxed_slice_items};
    ghost use Rattle.tsp_sends.specs.declared.slot.Slot.{Slot};
    ghost use Rattle.tsp_sends.specs.Held.{slots_of, AreHeld};

    ghost Value = { List Slot };

    ghost view = { λ s. slots_of (boxed_slice_items s.peers) s.held.items };

    ghost invariant = { λ s. AreHeld (boxed_slice_items s.peers) s.held.items (vec_capacity s.held) };
}

impl Slots {
    /// An empty slot for each peer. Fails only if out of memory.
    pub(crate) fn new(alloc: Global, peers: &[PeerId]) -> Result<Slots, AllocError>
        ensures { IfOk result (λ s. s ≡ map empty_slot peers.now) }
    {
        let held = Vec::with_capacity(alloc, peers.len())?;
        let peers = BoxedSlice::from_slice(alloc, peers)?;
        Ok(Slots { peers, held })
    }

    /// The number of slots.
    pub(crate) fn len(&self) -> usize
        ensures { result ≡ length self.now }
    {
        self.peers.len()
    }

    /// The place of a peer's slot, or as an error the place where it would be.
    pub(crate) fn place_of(&self, peer: PeerId) -> Result<usize, usize>
        requires { IsAscending (peers_of self.now) }
        ensures { IsPlaceOf peer self.now result }
    {
        place_of(self.peers.as_slice(), peer)
    }

    /// The place of the first slot whose peer comes after this one; without one, of the first slot.
    pub(crate) fn place_after(&self, after: Option<PeerId>) -> usize
        requires { IsAscending (peers_of self.now) }
        ensures { IsFirstAfter after self.now result }
    {
        let _count = self.len();
        match after {
            None => 0,
            Some(peer) => match self.place_of(peer) {
                Ok(place) => place + 1,
                Err(place) => place,
            },
        }
    }

    /// The kind of the open send at a place; None where none is open.
    pub(crate) fn kind(&self, place: usize) -> Option<Kind>
        requires { place < length self.now }
        ensures { (d : Slot) → result ≡ kind_of (slice_index_or self.now place d).sending }
    {
        if place < self.held.len() {
            self.held[place].kind()
        } else {
            None
        }
    }

    /// Whether a send with this number is open at a place.
    pub(crate) fn has_number(&self, place: usize, number: u16) -> bool
        requires { place < length self.now }
        ensures { (d : Slot)
            → result ≡ has_number number (slice_index_or self.now place d).sending }
    {
        if place < self.held.len() {
            self.held[place].has_number(number)
        } else {
            false
        }
    }

    /// The tick from which the open send at a place is due; None where none is open.
    pub(crate) fn deadline(&self, place: usize) -> Option<u64>
        requires { place < length self.now }
        ensures { (d : Slot) → result ≡ deadline_in (slice_index_or self.now place d) }
    {
        if place < self.held.len() {
            self.held[place].deadline()
        } else {
            None
        }
    }

    /// Puts a send, or none, into the slot at a place.
    pub(crate) fn set(&mut self, place: usize, sending: Option<Sending>)
        requires { place < length self.old }
        ensures { (d : Slot)
            → self.new ≡ slice_set self.old place (record (slice_index_or self.old place d)
            { sending = sending }) }
    {
        lengthen(&mut self.held, self.peers.as_slice(), place);
        self.held[place].sending = sending;
    }

    /// Posts the open send at a place again, or gives it up; None where none is open.
    pub(crate) fn repeat(&mut self, place: usize, tick: u64) -> Option<Due>
        requires { place < length self.old }
        ensures due { (d : Slot)
            → result ≡ option_map (repeated (slice_index_or self.old place d).peer tick)
            (slice_index_or self.old place d).sending }
        ensures slots { (d : Slot)
            → self.new ≡ slice_set self.old place (record (slice_index_or self.old place d)
            { sending = option_and_then (kept tick) (slice_index_or self.old place d).sending }) }
    {
        lengthen(&mut self.held, self.peers.as_slice(), place);
        self.held[place].repeat(tick)
    }
}

/// Lengthens the list of slots by empty ones, so that it has this place.
fn lengthen(held: &mut Vec<Slot>, peers: &[PeerId], place: usize)
    requires inside { place < length peers.now }
    requires held { AreHeld peers.now held.old.items (vec_capacity held.old) }
    ensures held { AreHeld peers.now held.new.items (vec_capacity held.new) }
    ensures same { slots_of peers.now held.new.items ≡ slots_of peers.now held.old.items }
    ensures long { place < length held.new.items }
{
    for next in held.len()..place + 1 {
        held.push_reserved(Slot::new(peers[next]));
    }
}
