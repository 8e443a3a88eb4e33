//! The table of a master's peers.
ghost use Rattle.std.specs.Prelude.{◌≡◌, ◌<◌, length, map, slice_index_or, slice_set, IfOk};
ghost use Rattle.std.specs.List.{Contains};
ghost use Rattle.tsp_base.specs.declared.place.PeerId.{PeerId};
ghost use Rattle.tsp_base.specs.Peers.{IsPeers};
ghost use Rattle.tsp_measure.specs.declared.entry.Entry.{Entry};
ghost use Rattle.tsp_measure.specs.Slaves.{peers_of, idle_entry, entry_of, Changes, ChangesAll};
ghost use Rattle.tsp_measure.specs.Slaves.{changed_by, leaves, unmeasures, are_settled_by, IsEntryPlace};

use crate::entry::{Change, Entry};
use std::alloc::{AllocError, Global};
use std::boxed::BoxedSlice;
use std::marker::Model;
use tsp_base::place::PeerId;

/// What a master knows of its peers, in the order of the peers.
#[derive(Drop)]
pub struct Slaves {
    entries: BoxedSlice<Entry>,
}

impl Model for Slaves {
    ghost use Rattle.std.specs.Prelude.{List};
    ghost use Rattle.std.specs.Box.{boxed_slice_items};
    ghost use Rattle.tsp_measure.specs.declared.entry.Entry.{Entry};
    ghost use Rattle.tsp_base.specs.Peers.{IsPeers};
    ghost use Rattle.tsp_measure.specs.Slaves.{peers_of};

    ghost Value = { List Entry };

    ghost view = { λ s. boxed_slice_items s.entries };

    ghost invariant = { λ s. IsPeers (peers_of (boxed_slice_items s.entries)) };
}

/// The place of a peer's entry; where the peer has none, `Err` with the place where it would be.
fn place_of(entries: &[Entry], peer: PeerId) -> Result<usize, usize>
    requires { IsPeers (peers_of entries.now) }
    ensures { IsEntryPlace peer entries.now result }
{
    entries.binary_search_by_key(&peer.0, |entry| entry.peer.0)
}

/// An entry for each peer, of whom nothing is known.
fn idle_entries(alloc: Global, peers: &[PeerId]) -> Result<Vec<Entry>, AllocError>
    ensures { IfOk result (λ v. v.items ≡ map idle_entry peers.now) }
{
    peers.iter().map(|peer| Entry::idle(*peer)).collect(alloc)
}

/// All slaves leave, and no peer is measured any more.
fn leave_each(entries: &mut [Entry])
    ensures { entries.new ≡ map leaves entries.old }
{
    for entry in entries.iter_mut() {
        entry.joined = false;
        entry.measured = false;
    }
}

/// No peer is measured any more.
fn unmeasure_each(entries: &mut [Entry])
    ensures { entries.new ≡ map unmeasures entries.old }
{
    for entry in entries.iter_mut() {
        entry.measured = false;
    }
}

impl Slaves {
    /// Nothing is known of any of these peers, at most 1,000, which must be in ascending order.
    ///
    /// Fails only if out of memory; no later call takes any.
    pub fn new(alloc: Global, peers: &[PeerId]) -> Result<Slaves, AllocError>
        requires { IsPeers peers.now }
        ensures peers { IfOk result (λ s. peers_of s ≡ peers.now) }
        ensures idle { IfOk result (λ s. (p : PeerId) → entry_of s p ≡ idle_entry p) }
    {
        let entries = idle_entries(alloc, peers)?;
        Ok(Slaves {
            entries: entries.into_boxed_slice(),
        })
    }

    /// The number of peers.
    pub fn len(&self) -> usize
        ensures value { result ≡ length (peers_of self.now) }
        ensures valid { IsPeers (peers_of self.now) }
    {
        self.entries.len()
    }

    /// What is known of the peer at a place.
    pub fn at(&self, place: usize) -> Entry
        requires { place < length (peers_of self.now) }
        ensures peer { (d : PeerId) → slice_index_or (peers_of self.now) place d ≡ result.peer }
        ensures entry { entry_of self.now result.peer ≡ result }
    {
        self.entries[place]
    }

    /// What is known of a peer.
    pub fn of(&self, peer: PeerId) -> Entry
        ensures { result ≡ entry_of self.now peer }
    {
        match place_of(&self.entries, peer) {
            Ok(place) => self.entries[place],
            Err(_) => Entry::idle(peer),
        }
    }

    /// Puts an entry in the place of the same peer's.
    fn put(&mut self, place: usize, entry: Entry)
        requires inside { place < length self.old }
        requires same { (d : Entry) → entry.peer ≡ (slice_index_or self.old place d).peer }
        ensures value { self.new ≡ slice_set self.old place entry }
        ensures peers { peers_of self.new ≡ peers_of self.old }
    {
        self.entries[place] = entry;
    }

    /// Changes the entry of one of the peers.
    pub fn change(&mut self, peer: PeerId, change: Change)
        requires { Contains (peers_of self.old) peer }
        ensures entries { Changes peer (changed_by change) self.old self.new }
        ensures peers { peers_of self.new ≡ peers_of self.old }
    {
        if let Ok(place) = place_of(&self.entries, peer) {
            let entry = self.entries[place];
            self.put(place, entry.changed(change));
        }
    }

    /// A peer leaves the slaves, if it is one, and isn't measured any more.
    pub fn leave(&mut self, peer: PeerId)
        ensures entries { Changes peer leaves self.old self.new }
        ensures peers { peers_of self.new ≡ peers_of self.old }
    {
        if let Ok(place) = place_of(&self.entries, peer) {
            let entry = self.entries[place];
            self.put(
                place,
                Entry {
                    joined: false,
                    measured: false,
                    ..entry
                },
            );
        }
    }

    /// All slaves leave, and no peer is measured any more.
    pub fn leave_all(&mut self)
        ensures entries { ChangesAll leaves self.old self.new }
        ensures peers { peers_of self.new ≡ peers_of self.old }
    {
        leave_each(self.entries.as_mut_slice());
    }

    /// No peer is measured any more.
    pub fn unmeasure_all(&mut self)
        ensures entries { ChangesAll unmeasures self.old self.new }
        ensures peers { peers_of self.new ≡ peers_of self.old }
    {
        unmeasure_each(self.entries.as_mut_slice());
    }

    /// Whether no correction is on its way to a slave that it hasn't acknowledged.
    pub fn are_settled(&self, tick: u64) -> bool
        ensures value { result ≡ are_settled_by tick self.now }
        ensures valid { IsPeers (peers_of self.now) }
    {
        self.entries
            .iter()
            .all(|entry| !entry.joined || entry.is_settled(tick))
    }
}
