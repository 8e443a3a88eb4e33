//! What an audit notes of a claimed history.
ghost use Rattle.std.specs.Prelude.{◌≡◌, ◌≤◌, [], List, length, IfOk, OnOk};
ghost use Rattle.tsp_audit.specs.declared.premises.Premises.{Premises};
ghost use Rattle.tsp_base.specs.Headers.{HeaderValue};
ghost use Rattle.tsp_base.specs.History.{Line};

use crate::agreement_tracker::AgreementTracker;
use std::alloc::{AllocError, Global};

/// What is noted of the lines so far.
#[derive(Drop)]
pub(crate) struct Remembered {
    /// The sends, by the numbers of the datagrams that begin them, of which Corrects have taken posts.
    pub(crate) acted: Vec<u64>,
    /// The tracker, which decides whether clocks agree; it takes lines in only where the schedule keeps all premises.
    pub(crate) agreement: AgreementTracker,
}

impl Remembered {
    ghost use Rattle.tsp_audit.specs.Remembered.{HasLineRoom, RememberedStands};

    /// Nothing is noted of so many nodes. Fails only if out of memory.
    pub(crate) fn new(alloc: Global, count: usize) -> Result<Remembered, AllocError>
        requires { count ≤ 64 }
        ensures { IfOk result (λ notes. (premises : Premises) (header : HeaderValue)
            → length header.nodes ≡ count → RememberedStands premises header [] notes) }
    {
        match AgreementTracker::new(alloc, count) {
            Ok(agreement) => Ok(Remembered {
                acted: Vec::new(alloc),
                agreement,
            }),
            Err(refused) => Err(refused),
        }
    }

    /// Makes room for so many lines more. Fails only if out of memory; either way the notes stand for what they did.
    pub(crate) fn make_room(&mut self, lines: usize) -> Result<(), AllocError>
        ensures room { OnOk result (HasLineRoom lines self.new) }
        ensures stand { (premises : Premises) (header : HeaderValue) (h : List Line)
            → RememberedStands premises header h self.old
            → RememberedStands premises header h self.new }
    {
        match self.acted.reserve(lines) {
            Ok(()) => self.agreement.make_room(lines),
            Err(refused) => Err(refused),
        }
    }
}
