//! Audits over lines of text.

use crate::tests::claiming::{event_of, header_of, is_claimable, lines_of};
use std::alloc::Global;
use tsp_audit::audit::Audit;
use tsp_audit::premises::Premises;
use tsp_audit::verdict::Verdict;
use tsp_claims::audit_fault::AuditFault;

/// What an audit should make of lines that are claimed of an event: this verdict, or the line with this index
/// isn't allowed, or with the index behind the last one, the event lacks something.
pub(crate) type Answer = Result<Verdict, usize>;

/// An audit of nodes on one network whose clocks don't drift, with all premises except that no
/// datagram is forged.
pub(crate) fn audit_of(alloc: Global, clocks: &[(i32, i64)]) -> Option<Audit> {
    let header = header_of(alloc, 0, clocks)?;
    let premises = Premises {
        honest: false,
        life: true,
        words: true,
    };
    Audit::new(alloc, header, premises).ok()
}

/// Claims the lines of a text of an event; None where a text isn't an event's line, the event can't be claimed,
/// or there is no memory.
fn claim(audit: &mut Audit, alloc: Global, event: &str, text: &str) -> Option<Answer> {
    let e = event_of(event.as_bytes())?;
    let lines = lines_of(alloc, text)?;
    if !is_claimable(audit.claims(), &e, lines.len()) {
        return None;
    }
    match audit.event(&e, lines.as_slice()) {
        Ok(verdict) => Some(Ok(verdict)),
        Err(AuditFault::History(index)) => Some(Err(index)),
        Err(AuditFault::OutOfMemory) => None,
    }
}

/// Claims row after row: an event, the lines that are claimed of it, and what should come of it.
/// The index of the first row of which something else comes.
pub(crate) fn first_wrong(
    audit: &mut Audit,
    alloc: Global,
    rows: &[(&str, &str, Answer)],
) -> Option<usize> {
    for (i, (event, text, answer)) in rows.iter().enumerate() {
        if claim(audit, alloc, event, text) != Some(*answer) {
            return Some(i);
        }
    }
    None
}
