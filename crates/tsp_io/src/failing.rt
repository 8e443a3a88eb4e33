//! Calls that a test makes fail.
ghost use Rattle.std.specs.Prelude.{◌≡◌, ◌↔◌, ◌+◌, ◌-◌, ◌^◌, IfOk, IsTrue, Contains, min};

use std::alloc::{AllocError, Global};

/// The numbers of the calls that are to fail; calls are counted from 0.
#[derive(Drop)]
pub(crate) struct Failing {
    calls: Vec<u32>,
    next: u32,
}

impl Failing {
    pub(crate) fn new(alloc: Global, calls: &[u32]) -> Result<Failing, AllocError>
        ensures { IfOk result (λ f. (f.calls.items ≡ calls.now) × (f.next ≡ 0)) }
    {
        Ok(Failing {
            calls: Vec::from_slice(alloc, calls)?,
            next: 0,
        })
    }

    /// Counts a call, and says whether it is to fail. The count stays at 2^32 - 1 once it is there.
    pub(crate) fn fails(&mut self) -> bool
        ensures listed { IsTrue result ↔ Contains self.old.calls.items self.old.next }
        ensures counted { self.new.next ≡ min (self.old.next + 1) (2 ^ 32 - 1) }
        ensures kept { self.new.calls ≡ self.old.calls }
    {
        let fails = self.calls.contains(&self.next);
        self.next = self.next.saturating_add(1);
        fails
    }
}
