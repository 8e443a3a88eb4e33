//! Laws of audits. Like all laws they do nothing: the clause is what they are for.
ghost use Rattle.tsp_audit_command.specs.Meaning.{auditing};
ghost use Rattle.tsp_lines.specs.Definite.{IsDefinite};

/// After any lines of an audit, at most one thing can come of the next line (it is accepted, refused for one cause, or
/// past a limit), and at most one of the end: one verdict, or one cause.
#[tactic(auto, using(crate::proofs::Definites::definite_auditing))]
pub fn definite_audit()
    ensures { IsDefinite auditing }
{}
