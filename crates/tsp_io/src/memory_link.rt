//! A link in memory. A test says what comes over it and which of its calls fail.
ghost use Rattle.std.specs.Prelude.{◌≡◌, ◌≢◌, ◌↔◌, ◌≤◌, ◌<◌, [], ◌++◌, ◌∷◌, length, Some, None};
ghost use Rattle.std.specs.Prelude.{IfOk, MatchResult, false, true, slice_get};
ghost use Rattle.std.specs.Option.{option_map};
ghost use Rattle.tsp_io.specs.Counts.{Rose, one_more};
ghost use Rattle.tsp_io.specs.FailingCalls.{FailsNext, CountsCall};
ghost use Rattle.tsp_io.specs.Links.{is_from_stranger, NotesReceive, NotesBind, ReceivesOne, Sends};

use crate::addr::Addr;
use crate::arrivals::{Arrivals, Coming};
use crate::failing::Failing;
use crate::link::{Bound, Link, Recv, Sent};
use crate::noted_calls::{NotedBinds, NotedWaits};
use crate::tried_sends::TriedSends;
use std::alloc::{AllocError, Global};
use tsp_base::place::Place;

/// What is to come, what was sent, and the numbers of the calls that fail.
#[derive(Drop)]
pub struct MemoryLink {
    alloc: Global,
    arrivals: Arrivals,
    tried: TriedSends,
    binds: NotedBinds,
    waits: NotedWaits,
    failing: Failing,
    calls: u64,
    stranger: bool,
    faults: u64,
    send_faults: u64,
}

impl MemoryLink {
    /// A link over which nothing comes, until `arrive` is called. The calls whose numbers are listed
    /// fail; binds, receives and sends are counted together, from 0. Fails only if out of memory.
    pub fn new(alloc: Global, failing: &[u32]) -> Result<MemoryLink, AllocError>
        ensures lists { IfOk result (λ s. (s.arrivals ≡ []) × (s.tried ≡ [])) }
        ensures notes { IfOk result (λ s. (s.binds ≡ Some []) × (s.waits ≡ Some [])) }
        ensures calls { IfOk result (λ s. (s.failing.calls.items ≡ failing.now)
            × (s.failing.next ≡ 0)) }
        ensures rest { IfOk result (λ s. (s.calls ≡ 0) × (s.stranger ≡ false) × (s.faults ≡ 0)
            × (s.send_faults ≡ 0)) }
    {
        Ok(MemoryLink {
            alloc,
            arrivals: Arrivals::new(alloc),
            tried: TriedSends::new(alloc),
            binds: NotedBinds::new(alloc),
            waits: NotedWaits::new(alloc),
            failing: Failing::new(alloc, failing)?,
            calls: 0,
            stranger: false,
            faults: 0,
            send_faults: 0,
        })
    }

    /// Adds a datagram to what the receives will get. Fails only if out of memory, and then changes nothing.
    pub fn arrive(&mut self, from: Place, octets: &[u8]) -> Result<(), AllocError>
        ensures { MatchResult result (λ _. self.new ≡ record self.old
            { arrivals = self.old.arrivals ++ Some (from, octets.now) ∷ [] })
            (λ _. self.new ≡ self.old) }
    {
        let octets = Vec::from_slice(self.alloc, octets)?;
        self.arrivals.push(Coming::Datagram(from, octets))?;
        Ok(())
    }

    /// Adds a receive that will get nothing within its wait. Fails only if out of memory, and then changes nothing.
    pub fn nothing(&mut self) -> Result<(), AllocError>
        ensures { MatchResult result (λ _. self.new ≡ record self.old
            { arrivals = self.old.arrivals ++ None ∷ [] }) (λ _. self.new ≡ self.old) }
    {
        self.arrivals.push(Coming::Nothing)?;
        Ok(())
    }

    /// How many microseconds each receive was to wait; None if there was no memory to note one of
    /// them.
    pub fn waits(&self) -> Option<&[u64]>
        ensures { option_map (λ waits. waits.now) result ≡ self.now.waits }
    {
        self.waits.all()
    }

    /// How many sends were tried.
    pub fn tried(&self) -> usize
        ensures { result ≡ length self.now.tried }
    {
        self.tried.len()
    }

    /// To whom the send with this number went; sends are counted from 0.
    pub fn tried_to(&self, i: usize) -> Place
        requires { i < length self.now.tried }
        ensures { option_map (λ t. t.0) (slice_get self.now.tried i) ≡ Some result }
    {
        self.tried.get(i).0
    }

    /// The datagram of the send with this number; sends are counted from 0.
    pub fn tried_octets(&self, i: usize) -> &[u8]
        requires { i < length self.now.tried }
        ensures { option_map (λ t. t.1) (slice_get self.now.tried i) ≡ Some result.now }
    {
        self.tried.get(i).1
    }
}

impl Link for MemoryLink {
    ghost arrivals = { λ s. Some s.arrivals };

    ghost tried = { λ s. Some s.tried };

    ghost binds = { λ s. s.binds };

    ghost waits = { λ s. s.waits };

    ghost calls = { λ s. Some s.calls };

    ghost stranger = { λ s. s.stranger };

    ghost faults = { λ s. s.faults };

    ghost send_faults = { λ s. s.send_faults };

    fn bind(&mut self, local: Addr, peers: &[Addr]) -> Bound
        ensures binds { NotesBind self.old.binds self.new.binds result
            (record { local = local; peers = peers.now }) }
        ensures same { (self.new.arrivals ≡ self.old.arrivals) × (self.new.tried ≡ self.old.tried)
            × (self.new.waits ≡ self.old.waits) × (self.new.stranger ≡ self.old.stranger) }
        ensures counted { (self.new.calls ≡ one_more self.old.calls)
            × CountsCall self.old.failing self.new.failing }
        ensures later { (self.old.faults ≤ self.new.faults)
            × (self.new.send_faults ≡ self.old.send_faults) }
        ensures cause { result ≡ Bound.Failed → Rose self.old.faults self.new.faults }
        ensures still { result ≢ Bound.Failed → self.new.faults ≡ self.old.faults }
        ensures fails { FailsNext self.old.failing → result ≡ Bound.Failed }
        ensures goes { ¬ FailsNext self.old.failing → result ≡ Bound.Bound }
    {
        self.calls = self.calls.saturating_add(1);
        if self.failing.fails() {
            self.faults = self.faults.saturating_add(1);
            return Bound::Failed;
        }
        self.binds.note(local, peers);
        Bound::Bound
    }

    fn recv(&mut self, buf: &mut [u8], wait: u64) -> Recv
        requires { length buf.old ≡ 512 }
        ensures receives { ReceivesOne (Some self.old.arrivals) (Some self.new.arrivals)
            self.old.stranger self.new.stranger result buf.new }
        ensures waits { NotesReceive self.old.waits self.new.waits wait }
        ensures same { (self.new.tried ≡ self.old.tried) × (self.new.binds ≡ self.old.binds) }
        ensures counted { (self.new.calls ≡ one_more self.old.calls)
            × CountsCall self.old.failing self.new.failing }
        ensures later { (self.old.faults ≤ self.new.faults)
            × (self.new.send_faults ≡ self.old.send_faults) }
        ensures cause { result ≡ Recv.Failed → Rose self.old.faults self.new.faults }
        ensures still { result ≢ Recv.Failed → self.new.faults ≡ self.old.faults }
        ensures fails { (result ≡ Recv.Failed) ↔ FailsNext self.old.failing }
    {
        self.waits.note(wait);
        self.calls = self.calls.saturating_add(1);
        if self.failing.fails() {
            self.faults = self.faults.saturating_add(1);
            return Recv::Failed;
        }
        match self.arrivals.take(buf) {
            Some((from, count)) => {
                self.stranger = from == Place::Stranger;
                Recv::Datagram(from, count)
            }
            None => Recv::Nothing,
        }
    }

    fn send(&mut self, to: Place, octets: &[u8]) -> Sent
        requires { to ≡ Place.Stranger → self.old.stranger ≡ true }
        ensures sends { Sends (Some self.old.tried) (Some self.new.tried) result (to, octets.now) }
        ensures same { (self.new.arrivals ≡ self.old.arrivals) × (self.new.calls ≡ self.old.calls)
            × (self.new.binds ≡ self.old.binds) × (self.new.waits ≡ self.old.waits)
            × (self.new.stranger ≡ self.old.stranger) }
        ensures counted { CountsCall self.old.failing self.new.failing }
        ensures later { (self.new.faults ≡ self.old.faults)
            × (self.old.send_faults ≤ self.new.send_faults) }
        ensures cause { result ≡ Sent.Failed → Rose self.old.send_faults self.new.send_faults }
        ensures still { result ≢ Sent.Failed → self.new.send_faults ≡ self.old.send_faults }
        ensures fails { result ≡ Sent.Failed → FailsNext self.old.failing }
        ensures goes { result ≡ Sent.Sent → ¬ FailsNext self.old.failing }
    {
        let fails = self.failing.fails();
        if self.tried.push(self.alloc, to, octets).is_err() {
            return Sent::OutOfMemory;
        }
        if fails {
            self.send_faults = self.send_faults.saturating_add(1);
            return Sent::Failed;
        }
        Sent::Sent
    }
}
