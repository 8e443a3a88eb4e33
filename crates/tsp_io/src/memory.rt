//! A source and a sink in memory. A test says which of their calls fail.
ghost use Rattle.std.specs.Prelude.{◌≡◌, ◌≢◌, ◌↔◌, ◌⊎◌, ℕ, ◌≤◌, ◌<◌, ◌+◌, ◌-◌, ◌^◌, [], ◌++◌};
ghost use Rattle.std.specs.Prelude.{length, drop, None, Some, false, IfOk, IsTrue, Contains, true};
ghost use Rattle.std.specs.Prelude.{vec_len, min, take};
ghost use Rattle.tsp_io.specs.Counts.{Rose};
ghost use Rattle.tsp_io.specs.FailingCalls.{FailsNext, CountsCall};
ghost use Rattle.tsp_io.specs.Streams.{ReadsSome, Writes};

use crate::failing::Failing;
use crate::sink::{Sink, Wrote};
use crate::source::{Got, Source};
use std::alloc::{AllocError, Global};

/// Copies octets to the front of the buffer, as many as it has room for, but at most `most`.
/// Answers how many.
pub(crate) fn copy_front(octets: &[u8], buf: &mut [u8], most: usize) -> usize
    ensures count { result ≡ min (length octets.now) (min (length buf.old) most) }
    ensures split { octets.now ≡ take result buf.new ++ drop result octets.now }
    ensures front { take result buf.new ≡ take (min (length buf.old) most) octets.now }
{
    let count = octets.len().min(buf.len().min(most));
    buf[..count].copy_from_slice(&octets[..count]);
    count
}

/// Octets to be read, and the numbers of the reads that fail.
#[derive(Drop)]
pub struct MemorySource {
    octets: Vec<u8>,
    at: usize,
    most: usize,
    failing: Failing,
    ended: bool,
    faults: u64,
    ghost within: { at ≤ vec_len octets },
    ghost gives: { 0 < most },
}

impl MemorySource {
    /// A source of these octets. The reads whose numbers are listed fail; they are counted from 0. Fails only if
    /// out of memory.
    pub fn new(alloc: Global, octets: &[u8], failing: &[u32]) -> Result<MemorySource, AllocError>
        ensures left { IfOk result (λ s. drop s.at s.octets.items ≡ octets.now) }
        ensures calls { IfOk result (λ s. (s.failing.calls.items ≡ failing.now)
            × (s.failing.next ≡ 0)) }
        ensures rest { IfOk result (λ s. (s.ended ≡ false) × (s.faults ≡ 0)
            × (s.most ≡ 2 ^ 64 - 1)) }
    {
        Ok(MemorySource {
            octets: Vec::from_slice(alloc, octets)?,
            at: 0,
            most: usize::MAX,
            failing: Failing::new(alloc, failing)?,
            ended: false,
            faults: 0,
        })
    }

    /// The same source, but no read gives more than `most` octets.
    pub fn in_pieces(mut self, most: usize) -> MemorySource
        requires { 0 < most }
        ensures most { result.most ≡ most }
        ensures octets { (result.octets ≡ self.octets) × (result.at ≡ self.at)
            × (result.ended ≡ self.ended) }
        ensures calls { (result.failing ≡ self.failing) × (result.faults ≡ self.faults) }
    {
        self.most = most;
        self
    }
}

impl Source for MemorySource {
    ghost left = { λ s. Some (drop s.at s.octets.items) };

    ghost ended = { λ s. s.ended };

    ghost faults = { λ s. s.faults };

    fn read(&mut self, buf: &mut [u8]) -> Got
        requires { 0 < length buf.old }
        ensures reads { ReadsSome (Some (drop self.old.at self.old.octets.items))
            (Some (drop self.new.at self.new.octets.items)) self.old.ended self.new.ended result
            buf.new }
        ensures later { self.old.faults ≤ self.new.faults }
        ensures cause { result ≡ Got.Failed → Rose self.old.faults self.new.faults }
        ensures still { result ≢ Got.Failed → self.new.faults ≡ self.old.faults }
        ensures fails { FailsNext self.old.failing → result ≡ Got.Failed }
        ensures gives { ¬ FailsNext self.old.failing
            → result ≡ Got.Got (min (length (drop self.old.at self.old.octets.items))
            (min (length buf.old) self.old.most)) }
        ensures counted { CountsCall self.old.failing self.new.failing
            × (self.new.most ≡ self.old.most) }
    {
        if self.failing.fails() {
            self.faults = self.faults.saturating_add(1);
            return Got::Failed;
        }
        let count = copy_front(&self.octets[self.at..], buf, self.most);
        if count == 0 {
            self.ended = true;
        }
        self.at += count;
        Got::Got(count)
    }
}

/// Octets that were written, and the numbers of the writes that fail.
#[derive(Drop)]
pub struct MemorySink {
    octets: Vec<u8>,
    failing: Failing,
    faults: u64,
}

impl MemorySink {
    /// A sink with nothing written. The writes whose numbers are listed fail; they are counted from 0. Fails only
    /// if out of memory.
    pub fn new(alloc: Global, failing: &[u32]) -> Result<MemorySink, AllocError>
        ensures { IfOk result (λ s. (s.octets.items ≡ []) × (s.failing.calls.items ≡ failing.now)
            × (s.failing.next ≡ 0) × (s.faults ≡ 0)) }
    {
        Ok(MemorySink {
            octets: Vec::new(alloc),
            failing: Failing::new(alloc, failing)?,
            faults: 0,
        })
    }

    /// What was written.
    pub fn written(&self) -> &[u8]
        ensures { result.now ≡ self.now.octets.items }
    {
        self.octets.as_slice()
    }
}

impl Sink for MemorySink {
    ghost written = { λ s. Some s.octets.items };

    ghost faults = { λ s. s.faults };

    fn write(&mut self, piece: &[u8]) -> Wrote
        requires { 0 < length piece.now }
        ensures writes { Writes (Some self.old.octets.items) (Some self.new.octets.items) result
            piece.now }
        ensures later { self.old.faults ≤ self.new.faults }
        ensures cause { result ≡ Wrote.Failed → Rose self.old.faults self.new.faults }
        ensures still { result ≢ Wrote.Failed → self.new.faults ≡ self.old.faults }
        ensures fails { (result ≡ Wrote.Failed) ↔ FailsNext self.old.failing }
        ensures whole { result ≡ Wrote.Failed
            ⊎ (result ≡ Wrote.OutOfMemory ⊎ result ≡ Wrote.Took (length piece.now)) }
        ensures counted { CountsCall self.old.failing self.new.failing }
    {
        if self.failing.fails() {
            self.faults = self.faults.saturating_add(1);
            return Wrote::Failed;
        }
        match self.octets.extend_from_slice(piece) {
            Ok(()) => Wrote::Took(piece.len()),
            Err(_) => Wrote::OutOfMemory,
        }
    }
}
