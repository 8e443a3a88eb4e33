//! What an audit says of a run's own trace: laws, which do nothing.
ghost use Rattle.tsp_audit.specs.AuditedRuns.{RunsAreClaimed, RunsFitClaims, RunsHold};

/// The history that a run's own trace claims is the run's history.
pub fn runs_are_claimed()
    ensures { RunsAreClaimed }
{}

/// The lines that a run's own trace has of each event fit: an audit that reads them refuses none.
pub fn runs_fit_claims()
    ensures { RunsFitClaims }
{}

/// The verdict of an audit on a run's own trace is that all parts hold, up to each event; no other
/// verdict is right.
pub fn runs_hold()
    ensures { RunsHold }
{}
