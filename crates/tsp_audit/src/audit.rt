//! The audit of a claimed history, event by event.
ghost use Rattle.std.specs.Prelude.{◌≡◌, ◌≤◌, ◌<◌, ◌+◌, ◌-◌, List, [], true, None, length, vec_len, vec_capacity, IfOk};
ghost use Rattle.tsp_audit.specs.Ends.{AreDated, EndsAt};
ghost use Rattle.tsp_audit.specs.Looking.{Finds, Grown};
ghost use Rattle.tsp_audit.specs.Remembered.{HasLineRoom, RememberedStands};
ghost use Rattle.tsp_base.specs.Headers.{HeaderValue, is_whole};
ghost use Rattle.tsp_base.specs.History.{Line};
ghost use Rattle.tsp_claims.specs.ClaimedHistory.{Claim, claimed};
ghost use Rattle.tsp_claims.specs.Stands.{ClaimsStand};

use crate::looking::{look, look_through};
use crate::premises::Premises;
use crate::remembered::Remembered;
use crate::verdict::{Failure, Verdict, verdict_of};
use std::alloc::{AllocError, Global};
use tsp_base::event::Event;
use tsp_base::header::Header;
use tsp_base::trace::Line2;
use tsp_claims::audit_fault::AuditFault;
use tsp_claims::claims::Claims;

/// The first failure, which is the earlier one if there is one.
fn find(
    failed: Option<Failure>,
    claims: &Claims,
    premises: Premises,
    from: usize,
    notes: &mut Remembered,
) -> Option<Failure>
    ensures { (header : HeaderValue) (new : List Claim) (h : List Line)
        → ClaimsStand header new claims.now
        → Grown (length header.nodes) h (claimed header new) from
        → HasLineRoom (length (claimed header new) - from) notes.old
        → (failed ≡ None → RememberedStands premises header h notes.old)
        → Finds premises header new h failed notes.new result }
{
    match failed {
        Some(failure) => Some(failure),
        None => look(
            claims.header(),
            claims.lines(),
            premises,
            from,
            claims.events(),
            notes,
        ),
    }
}

/// The audit of a claimed history, under the premises that its whole schedule keeps.
#[derive(Drop)]
pub struct Audit {
    /// What is claimed so far.
    pub(crate) claims: Claims,
    /// Which premises the whole schedule keeps.
    pub(crate) premises: Premises,
    /// What is noted of the claimed history, as long as nothing fails.
    pub(crate) notes: Remembered,
    /// The first failure; from then on only whether lines fit is checked.
    pub(crate) failed: Option<Failure>,
}

impl Audit {
    ghost use Rattle.std.specs.Prelude.{List};
    ghost use Rattle.tsp_audit.specs.Settings.{HasClocks};
    ghost use Rattle.tsp_promises.specs.Setting.{Setting};
    ghost use Rattle.tsp_base.specs.Headers.{HeaderValue};
    ghost use Rattle.tsp_audit.specs.Verdicts.{AuditStands, Audits, IsFound};
    ghost use Rattle.tsp_claims.specs.ClaimedHistory.{Claim};
    ghost use Rattle.tsp_claims.specs.Listed.{NamesNode};
    ghost use Rattle.tsp_run.specs.Run.{event_at};

    /// Nothing is claimed. The header has 1 to 16 nodes, and each is in a network if it names any.
    /// Fails only if out of memory, and then drops the header.
    pub fn new(alloc: Global, header: Header, premises: Premises) -> Result<Audit, AllocError>
        requires some { 1 ≤ length header.nodes }
        requires few { length header.nodes ≤ 16 }
        requires whole { is_whole header ≡ true }
        ensures { IfOk result (λ audit. AuditStands premises header [] audit) }
    {
        let Ok(notes) = Remembered::new(alloc, header.nodes().len()) else {
            return Err(AllocError);
        };
        match Claims::new(alloc, header) {
            Ok(claims) => Ok(Audit {
                claims,
                premises,
                notes,
                failed: None,
            }),
            Err(refused) => Err(refused),
        }
    }

    /// The audit of claims that were taken in before, which are judged here; whether their lines fit
    /// isn't asked again. `ends` has, for each event, the oldest first, how many lines of the history
    /// stand up to its end. Fails only if out of memory, and then drops the claims.
    pub fn of(
        alloc: Global,
        claims: Claims,
        ends: &[u32],
        premises: Premises,
    ) -> Result<Audit, AllocError>
        requires few { length claims.header.nodes ≤ 16 }
        ensures { (header : HeaderValue) (told : List Claim) → ClaimsStand header told claims
            → AreDated (length header.nodes) told → EndsAt header told ends.now
            → IfOk result (λ audit. AuditStands premises header told audit) }
    {
        let Ok(mut notes) = Remembered::new(alloc, claims.header().nodes().len()) else {
            return Err(AllocError);
        };
        match look_through(&claims, ends, premises, &mut notes) {
            Ok(failed) => Ok(Audit {
                claims,
                premises,
                notes,
                failed,
            }),
            Err(refused) => Err(refused),
        }
    }

    /// Takes in an event and the lines that are claimed of it, and gives the verdict of the history
    /// so far. The time is at most 10^15 microseconds, the node that the event names exists, and
    /// with this event there are at most 20,000 events and 20,000 lines. `History` has the index,
    /// from 0, of the first line that doesn't fit; or how many there are, where all fit and the
    /// event lacks something. It is out of memory only where all fit. After either fault the audit
    /// is what it was.
    pub fn event(&mut self, e: &Event, acts: &[Line2]) -> Result<Verdict, AuditFault>
        requires time { event_at e.now ≤ 1000000000000000 }
        requires node { NamesNode (length self.old.claims.header.nodes) e.now }
        requires events { self.old.claims.events < 20000 }
        requires lines { self.old.claims.told + length acts.now ≤ 20000 }
        ensures { (premises : Premises) (header : HeaderValue) (claims : List Claim)
            → AuditStands premises header claims self.old
            → Audits premises header claims e.now acts.now result self.new }
    {
        let from = self.claims.lines().len();
        if self.notes.make_room(acts.len() + 1).is_err() {
            return Err(match self.claims.first_misfit(e, acts) {
                Some(index) => AuditFault::History(index),
                None => AuditFault::OutOfMemory,
            });
        }
        match self.claims.event(e, acts) {
            Ok(()) => {
                self.failed = find(
                    self.failed,
                    &self.claims,
                    self.premises,
                    from,
                    &mut self.notes,
                );
                Ok(verdict_of(self.failed))
            }
            Err(fault) => Err(fault),
        }
    }

    /// What is claimed so far.
    pub fn claims(&self) -> &Claims
        ensures { result.now ≡ self.now.claims }
    {
        &self.claims
    }

    /// The first failure, if one was found.
    pub fn failure(&self) -> Option<Failure>
        ensures { (premises : Premises) (header : HeaderValue) (claims : List Claim)
            → AuditStands premises header claims self.now → (setting : Setting)
            → HasClocks header setting → IsFound premises setting header claims result }
    {
        self.failed
    }
}
