//! A tick counter and a wall clock in memory.
ghost use Rattle.std.specs.Prelude.{◌≡◌, ℕ, ◌≤◌, ◌<◌, ◌^◌, length, true, false, drop, [], IfOk, None, Some, vec_len};
ghost use Rattle.std.specs.Option.{option_map};
ghost use Rattle.tsp_io.specs.Clocks.{climbs, IsWall};

use crate::origin::Origin;
use crate::ticker::Ticker;
use std::alloc::{AllocError, Global};

/// A tick counter whose readings are told, and a wall clock and a word that don't change.
#[derive(Drop)]
pub struct MemoryTicker {
    ticks: Vec<u64>,
    at: usize,
    wall: i64,
    word: u64,
    last: u64,
    wall_at: Option<usize>,
    origin: Option<Origin>,
    delay: u64,
    ghost within: { at ≤ vec_len ticks },
    ghost climbs: { climbs last (drop at ticks.items) ≡ true },
    ghost last_small: { last ≤ 2 ^ 61 },
    ghost wall_range: { IsWall wall },
}

impl MemoryTicker {
    /// A counter that gives these readings, in microseconds, and then the last one again and again.
    /// There is at least one; they don't fall, and are at most 2^61. Fails only if out of memory.
    pub fn new(
        alloc: Global,
        ticks: &[u64],
        wall: i64,
        word: u64,
    ) -> Result<MemoryTicker, AllocError>
        requires some { 0 < length ticks.now }
        requires climbs { climbs 0 ticks.now ≡ true }
        requires wall { IsWall wall }
        ensures readings { IfOk result (λ s. drop s.at s.ticks.items ≡ ticks.now) }
        ensures rest { IfOk result (λ s. (s.wall ≡ wall) × (s.word ≡ word) × (s.last ≡ 0)
            × (s.wall_at ≡ None)) }
        ensures page { IfOk result (λ s. (s.origin ≡ None) × (s.delay ≡ 0)) }
    {
        Ok(MemoryTicker {
            ticks: Vec::from_slice(alloc, ticks)?,
            at: 0,
            wall,
            word,
            last: 0,
            wall_at: None,
            origin: None,
            delay: 0,
        })
    }

    /// The same ticker, whose ticks are counted from there.
    pub fn counted_from(mut self, origin: Origin) -> MemoryTicker
        ensures { result ≡ record self { origin = Some origin } }
    {
        self.origin = Some(origin);
        self
    }

    /// The same ticker, whose `moment` is so many microseconds after the last reading.
    pub fn delayed(mut self, delay: u64) -> MemoryTicker
        ensures { result ≡ record self { delay = delay } }
    {
        self.delay = delay;
        self
    }

    /// How many of the readings are still to be given.
    pub fn left(&self) -> usize
        ensures { result ≡ length (drop self.now.at self.now.ticks.items) }
    {
        self.ticks.len() - self.at
    }
}

impl Ticker for MemoryTicker {
    ghost readings = { λ s. Some (drop s.at s.ticks.items) };

    ghost wall_is = { λ s. Some s.wall };

    ghost word_is = { λ s. Some s.word };

    ghost left_at_wall = { λ s. Some (option_map (λ k. drop k s.ticks.items) s.wall_at) };

    ghost last = { λ s. s.last };

    ghost origin_is = { λ s. Some s.origin };

    ghost delay_is = { λ s. Some s.delay };

    ghost boarded = { λ _. false };

    ghost marks = { λ _. None };

    ghost views = { λ _. Some [] };

    fn tick(&mut self) -> u64 {
        if self.at < self.ticks.len() {
            let at = self.at;
            self.at += 1;
            self.last = self.ticks[at];
        }
        self.last
    }

    fn wall(&mut self) -> i64 {
        self.wall_at = Some(self.at);
        self.wall
    }

    fn word(&mut self) -> u64 {
        self.word
    }

    fn origin(&self) -> Option<Origin> {
        self.origin
    }

    fn moment(&self) -> u64 {
        self.last.saturating_add(self.delay).min(1 << 61)
    }

    fn has_board(&self) -> bool {
        false
    }

    fn mark(&mut self, _at: u64, _octets: &[u8]) {}

    fn view(&mut self, _at: u64, _buf: &mut [u8]) -> bool {
        false
    }

    fn retune(&mut self, tick: u64, rate: i64) -> Option<Origin> {
        let origin = self.origin?.retuned(tick, rate)?;
        self.origin = Some(origin);
        Some(origin)
    }
}
