//! The exchanges with each peer.
ghost use Rattle.std.specs.Prelude.{◌≡◌, ◌≢◌, ℕ, ◌+◌, ◌<◌, [], ◌∷◌, ◌++◌, map, length, slice_index, IfOk, MatchOption};
ghost use Rattle.std.specs.Box.{boxed_slice_items};
ghost use Rattle.std.specs.List.{Contains};
ghost use Rattle.std.specs.List.Sorted.{IsStrictlyIncreasing};
ghost use Rattle.std.specs.Option.{option_map};
ghost use Rattle.tsp_measure.specs.Measures.{IsReading, IsStamp, IsNewCounter, IsBestSample, TakesReply};
ghost use Rattle.tsp_measure.specs.Measures.{nothing_measured, begun, best_of};
ghost use Rattle.tsp_base.specs.Peers.{IsAscending};
ghost use Rattle.tsp_measure.specs.Peers.{with_peer};

use crate::exchange::Exchange;
use crate::peer_exchanges::PeerExchanges;
use crate::sample::{Reply, Sample};
use std::alloc::{AllocError, Global};
use std::boxed::BoxedSlice;
use std::marker::Model;
use tsp_base::place::PeerId;

/// The exchanges with each peer, at most four since the last `clear`, and their samples.
///
/// The list of what is measured has room for all peers, but ends with the last one with whom an exchange began:
/// a node that measures nobody never touches its memory.
#[derive(Drop)]
pub struct Exchanges {
    peers: BoxedSlice<u32>,
    measured: Vec<PeerExchanges>,
}

impl Model for Exchanges {
    ghost use Rattle.std.specs.Prelude.{◌≡◌, ◌≤◌, length, vec_capacity};
    ghost use Rattle.std.specs.Box.{boxed_slice_items};
    ghost use Rattle.std.specs.List.Sorted.{IsStrictlyIncreasing};
    ghost use Rattle.tsp_measure.specs.Peers.{MeasuredPeers};

    ghost Value = { MeasuredPeers };

    ghost view = { λ e. record {
      peers = boxed_slice_items e.peers;
      measured = e.measured.items;
    } };

    ghost invariant = { λ e. IsStrictlyIncreasing (boxed_slice_items e.peers)
        × ((length e.measured.items ≤ length (boxed_slice_items e.peers))
        × (vec_capacity e.measured ≡ length (boxed_slice_items e.peers))) };
}

/// The peers' numbers.
fn numbers_of(alloc: Global, peers: &[PeerId]) -> Result<BoxedSlice<u32>, AllocError>
    ensures { IfOk result (λ numbers. boxed_slice_items numbers ≡ map (λ p. p.0) peers.now) }
{
    peers.iter().map(|peer| peer.0).collect(alloc)
}

/// The place of a number in an ascending list; None where it isn't there.
fn place_of(peers: &[u32], peer: u32) -> Option<usize>
    requires { IsStrictlyIncreasing peers.now }
    ensures { MatchOption result (Contains peers.now peer → ⊥) (λ i. (i < length peers.now)
        × (slice_index peers.now i ≡ peer)) }
{
    peers.binary_search(&peer).ok()
}

impl Exchanges {
    /// No exchange with any of the peers, which must be in ascending order.
    ///
    /// Fails only if out of memory. No later call allocates any.
    pub fn new(alloc: Global, peers: &[PeerId]) -> Result<Exchanges, AllocError>
        requires { IsAscending peers.now }
        ensures peers { IfOk result (λ x. x.peers ≡ map (λ p. p.0) peers.now) }
        ensures nothing { IfOk result (λ x. (p : ℕ) → with_peer x p ≡ nothing_measured) }
    {
        let numbers = numbers_of(alloc, peers)?;
        let measured = Vec::with_capacity(alloc, peers.len())?;
        Ok(Exchanges {
            peers: numbers,
            measured,
        })
    }

    /// Begins an exchange: a request with this word and counter was sent at `a`, in microseconds of the own
    /// clock. The counter must be new, and the exchange at most the peer's fourth since the last `clear`.
    pub fn start(&mut self, peer: PeerId, word: u64, counter: u64, a: i64)
        requires peer { Contains self.old.peers peer.0 }
        requires few { begun (with_peer self.old peer.0) < 4 }
        requires counter { IsNewCounter counter (with_peer self.old peer.0) }
        requires reading { IsReading a }
        ensures peers { self.new.peers ≡ self.old.peers }
        ensures started { with_peer self.new peer.0 ≡ record (with_peer self.old peer.0) {
          pending = (with_peer self.old peer.0).pending ++ record {
            word = word;
            counter = counter;
            a = a;
          } ∷ [];
        } }
        ensures others { (q : ℕ) → q ≢ peer.0 → with_peer self.new q ≡ with_peer self.old q }
    {
        match place_of(self.peers.as_slice(), peer.0) {
            Some(place) => {
                self.lengthen(place);
                self.measured[place].start(Exchange { word, counter, a });
            }
            None => unreachable!(),
        }
    }

    /// Lengthens the list of what is measured, so that it has a peer's place.
    fn lengthen(&mut self, place: usize)
        requires { place < length self.old.peers }
        ensures peers { self.new.peers ≡ self.old.peers }
        ensures same { (p : ℕ) → with_peer self.new p ≡ with_peer self.old p }
        ensures long { place < length self.new.measured }
    {
        for next in self.measured.len()..place + 1 {
            self.add();
        }
    }

    /// Adds the place of the next peer, with whom nothing is measured.
    fn add(&mut self)
        requires { length self.old.measured < length self.old.peers }
        ensures { self.new ≡ record self.old { measured = self.old.measured ++ nothing_measured ∷ [] } }
    {
        self.measured.push_reserved(PeerExchanges::new());
    }

    /// The place of a peer in the list of what is measured; None where nothing is measured with it.
    fn measured_place(&self, peer: PeerId) -> Option<usize>
        ensures { MatchOption result (with_peer self.now peer.0 ≡ nothing_measured)
            (λ i. (i < length self.now.measured) × (slice_index self.now.peers i ≡ peer.0)) }
    {
        match place_of(self.peers.as_slice(), peer.0) {
            None => None,
            Some(place) => {
                if place < self.measured.len() {
                    Some(place)
                } else {
                    None
                }
            }
        }
    }

    /// Takes a reply: it says that the other clock read `s`, and the own clock read `d` when it came, both in
    /// microseconds.
    ///
    /// It ends the open exchange with this peer, word and counter, and gives its sample. Where there is none it
    /// is [`Reply::NotStarted`], and nothing changes.
    pub fn reply(
        &mut self,
        peer: PeerId,
        word: u64,
        counter: u64,
        ticket: u16,
        s: i64,
        d: i64,
    ) -> Reply
        requires s { IsStamp s }
        requires d { IsReading d }
        ensures peers { self.new.peers ≡ self.old.peers }
        ensures replies { TakesReply word counter ticket s d (with_peer self.old peer.0)
            (with_peer self.new peer.0) result }
        ensures others { (q : ℕ) → q ≢ peer.0 → with_peer self.new q ≡ with_peer self.old q }
    {
        match self.measured_place(peer) {
            Some(place) => self.measured[place].reply(word, counter, ticket, s, d),
            None => Reply::NotStarted,
        }
    }

    /// The peer's sample with the shortest round trip, the first of them; None where it has no sample.
    pub fn best(&self, peer: PeerId) -> Option<Sample>
        ensures value { result ≡ option_map (λ t. t.sample)
            (best_of (with_peer self.now peer.0).samples) }
        ensures first { IsBestSample (with_peer self.now peer.0).samples
            (best_of (with_peer self.now peer.0).samples) }
    {
        match self.measured_place(peer) {
            Some(place) => self.measured[place].best(),
            None => None,
        }
    }

    /// Forgets all exchanges and samples.
    pub fn clear(&mut self)
        ensures peers { self.new.peers ≡ self.old.peers }
        ensures nothing { (p : ℕ) → with_peer self.new p ≡ nothing_measured }
    {
        self.measured.clear();
    }
}
