//! The exchanges of a master's rounds.
ghost use Rattle.std.specs.Prelude.{◌≡◌, ℕ, ◌+◌, ◌*◌, ◌≤◌, ◌<◌, true, false, map, IfOk, MatchBool};
ghost use Rattle.std.specs.List.{Contains};
ghost use Rattle.std.specs.Option.{option_map};
ghost use Rattle.tsp_base.specs.declared.place.PeerId.{PeerId};
ghost use Rattle.tsp_measure.specs.Measures.{IsReading, TakesReply, begun, best_of};
ghost use Rattle.tsp_base.specs.Peers.{IsAscending};
ghost use Rattle.tsp_measure.specs.Peers.{with_peer};
ghost use Rattle.tsp_measure.specs.Rounds.{RoundsValue, measured_with, IsCounted, IsNothing, AreApart, Starts};

use crate::exchanges::Exchanges;
use crate::sample::{Reply, Sample};
use std::alloc::{AllocError, Global};
use std::marker::Model;
use tsp_base::place::PeerId;
use tsp_base::stamp::StampReply;

/// How often a round probes its slaves after its first requests.
pub const PROBES: u8 = 3;

/// What the last round has asked and learned, and how many requests were posted since the boot, modulo 2^64.
#[derive(Drop)]
pub struct Rounds {
    exchanges: Exchanges,
    asked: u64,
    probes: u8,
}

impl Model for Rounds {
    ghost use Rattle.tsp_measure.specs.Rounds.{RoundsValue, IsRounds, rounds_of};

    ghost Value = { RoundsValue };

    ghost view = { λ r. rounds_of r.exchanges r.asked r.probes };

    ghost invariant = { λ r. IsRounds (rounds_of r.exchanges r.asked r.probes) };
}

impl Rounds {
    /// No request was posted to any of these peers.
    ///
    /// Fails only if out of memory; no later call takes any.
    pub fn new(alloc: Global, peers: &[PeerId]) -> Result<Rounds, AllocError>
        requires { IsAscending peers.now }
        ensures peers { IfOk result (λ r. r.exchanges.peers ≡ map (λ p. p.0) peers.now) }
        ensures asked { IfOk result (λ r. r.asked ≡ 0) }
    {
        let exchanges = Exchanges::new(alloc, peers)?;
        Ok(Rounds {
            exchanges,
            asked: 0,
            probes: 0,
        })
    }

    /// How often the going round has probed.
    pub fn probes(&self) -> u8
        ensures { result ≡ self.now.probes }
    {
        self.probes
    }

    /// A round begins.
    pub fn begin(&mut self)
        ensures asked { self.new.asked ≡ self.old.asked }
        ensures probes { self.new.probes ≡ 0 }
        ensures peers { self.new.exchanges.peers ≡ self.old.exchanges.peers }
        ensures nothing { IsNothing self.new }
        ensures counted { IsCounted self.new 0 }
    {
        self.exchanges.clear();
        self.probes = 0;
    }

    /// Counts a probe of the going round; false where it has probed [`PROBES`] times, and then
    /// nothing changes.
    pub fn count_probe(&mut self) -> bool
        ensures counts { MatchBool result (self.new ≡ record self.old { probes = self.old.probes + 1 })
            (self.new ≡ self.old) }
        ensures more { result ≡ true → self.old.probes < 3 }
        ensures less { result ≡ false → 3 ≤ self.old.probes }
        ensures few { result ≡ true → (p : ℕ)
            → begun (with_peer self.new.exchanges p) ≤ self.new.probes }
        ensures counted { result ≡ true → IsCounted self.new (1000 * self.new.probes) }
    {
        let more = self.probes < PROBES;
        if more {
            self.probes += 1;
        }
        more
    }

    /// Begins an exchange: a request of this word goes off at `a`, in microseconds by the own
    /// clock. The answer is the request's counter.
    pub fn start(&mut self, peer: PeerId, word: u64, a: i64) -> u64
        requires peer { Contains self.old.exchanges.peers peer.0 }
        requires few { begun (measured_with self.old peer) ≤ self.old.probes }
        requires counted { IsCounted self.old (1000 * self.old.probes + 999) }
        requires reading { IsReading a }
        ensures counter { result ≡ self.old.asked }
        ensures starts { Starts peer word a self.old self.new }
        ensures counted { (most : ℕ) → most < 4000 → IsCounted self.old most
            → IsCounted self.new (most + 1) }
    {
        let counter = self.asked;
        self.exchanges.start(peer, word, counter, a);
        self.asked = self.asked.wrapping_add(1);
        counter
    }

    /// Takes a reply that came at this target of the own clock, in microseconds. It gives a sample where an
    /// exchange with this peer has its word and counter.
    pub fn reply(&mut self, peer: PeerId, reply: &StampReply, target: i64) -> Reply
        requires { IsReading target }
        ensures asked { self.new.asked ≡ self.old.asked }
        ensures probes { self.new.probes ≡ self.old.probes }
        ensures peers { self.new.exchanges.peers ≡ self.old.exchanges.peers }
        ensures apart { AreApart (measured_with self.old peer).pending }
        ensures replies { TakesReply reply.now.word reply.now.counter reply.now.ticket
            reply.now.reading target (measured_with self.old peer) (measured_with self.new peer)
            result }
        ensures others { (q : PeerId) → (q.0 ≡ peer.0 → ⊥)
            → measured_with self.new q ≡ measured_with self.old q }
    {
        self.exchanges.reply(
            peer,
            reply.word(),
            reply.counter(),
            reply.ticket(),
            reply.reading(),
            target,
        )
    }

    /// The first of a peer's samples of least round trip; None exactly where it has none.
    pub fn best(&self, peer: PeerId) -> Option<Sample>
        ensures { result ≡ option_map (λ t. t.sample)
            (best_of (measured_with self.now peer).samples) }
    {
        self.exchanges.best(peer)
    }
}
