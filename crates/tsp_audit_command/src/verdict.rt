//! The verdict on what is claimed.
ghost use Rattle.std.specs.Prelude.{IfOk};
ghost use Rattle.tsp_audit_command.specs.Readings.{GivesVerdict};

use crate::claim_reader::ClaimReader;
use std::alloc::AllocError;
use tsp_audit::audit::Audit;
use tsp_audit::verdict::Failure;

impl ClaimReader {
    /// The first failure of what is claimed of the events that were passed, under the premises that they keep; None
    /// where all parts hold. Call it after `pass_all`, so that these are all events of the schedule. Fails only if out
    /// of memory.
    pub(crate) fn judge(self) -> Result<Option<Failure>, AllocError>
        ensures { IfOk result (λ found. GivesVerdict self.header self.passed found) }
    {
        let ends = self.ends;
        let audit = Audit::of(self.alloc, self.claims, ends.as_slice(), self.premises)?;
        Ok(audit.failure())
    }
}
