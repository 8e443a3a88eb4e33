//! The exchanges with one peer.
ghost use Rattle.std.specs.Prelude.{◌≡◌, ◌<◌, [], ◌∷◌, ◌++◌, true, false, length, MatchOption};
ghost use Rattle.std.specs.List.{All, HoldsAt};
ghost use Rattle.std.specs.Option.{option_map};
ghost use Rattle.tsp_measure.specs.Measures.{IsReading, IsStamp, nothing_measured, begun, asks, TakesReply, best_of};

use crate::exchange::Exchange;
use crate::sample::{Reply, Sample, TimedSample};
use arrayvec::ArrayVec;
use std::marker::Model;

/// At most four exchanges, each open or answered.
#[derive(Drop)]
pub(crate) struct PeerExchanges {
    pending: ArrayVec<Exchange, 4>,
    samples: ArrayVec<TimedSample, 4>,
}

impl Model for PeerExchanges {
    ghost use Rattle.std.specs.Prelude.{◌+◌, ◌≤◌, length};
    ghost use Rattle.std.specs.List.{All};
    ghost use Rattle.tsp_measure.specs.Measures.{Measured, AllReadings};

    ghost Value = { Measured };

    ghost view = { λ e. record { pending = e.pending.items; samples = e.samples.items } };

    ghost invariant = { λ e. (length e.pending.items + length e.samples.items ≤ 4)
        × AllReadings e.pending.items };
}

/// The place of the exchange with this word and counter; None where there is none.
fn place_of(pending: &[Exchange], word: u64, counter: u64) -> Option<usize>
    ensures { MatchOption result (All (λ e. asks word counter e ≡ false) pending.now)
        (λ i. (i < length pending.now) × HoldsAt (λ e. asks word counter e ≡ true) pending.now i) }
{
    pending.iter().position(|exchange| exchange.word == word && exchange.counter == counter)
}

impl PeerExchanges {
    /// No exchange.
    pub(crate) fn new() -> PeerExchanges
        ensures { result ≡ nothing_measured }
    {
        PeerExchanges {
            pending: ArrayVec::new(),
            samples: ArrayVec::new(),
        }
    }

    /// Begins an exchange.
    pub(crate) fn start(&mut self, exchange: Exchange)
        requires few { begun self.old < 4 }
        requires reading { IsReading exchange.a }
        ensures { self.new ≡ record self.old { pending = self.old.pending ++ exchange ∷ [] } }
    {
        self.pending.push(exchange);
    }

    /// Answers the open exchange with this word and counter, if there is one.
    pub(crate) fn reply(&mut self, word: u64, counter: u64, ticket: u16, s: i64, d: i64) -> Reply
        requires s { IsStamp s }
        requires d { IsReading d }
        ensures { TakesReply word counter ticket s d self.old self.new result }
    {
        match place_of(self.pending.as_slice(), word, counter) {
            None => Reply::NotStarted,
            Some(place) => {
                let exchange = self.pending.remove(place);
                let taken = TimedSample::new(exchange.a, s, d, ticket, counter);
                self.samples.push(taken);
                Reply::Sample(taken.sample)
            }
        }
    }

    /// The sample with the shortest round trip, the first of them.
    pub(crate) fn best(&self) -> Option<Sample>
        ensures { result ≡ option_map (λ t. t.sample) (best_of self.now.samples) }
    {
        let mut best: Option<TimedSample> = None;
        for taken in self.samples.iter() {
            best = match best {
                Some(early) if early.trip <= taken.trip => Some(early),
                _ => Some(*taken),
            };
        }
        best.map(|taken| taken.sample)
    }
}
