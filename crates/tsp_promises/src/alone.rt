//! A node with one port does what that port does: laws, which do nothing.
ghost use Rattle.tsp_promises.specs.Alone.{AnswersAlone, BootsAlone, RunsAlone};

/// Whatever a node with one port has done so far, it answers in its next step what its port
/// answers.
pub fn answers_alone()
    ensures { AnswersAlone }
{}

/// A node with one port boots as its port does.
pub fn boots_alone()
    ensures { BootsAlone }
{}

/// So the runs of a node with one port are the runs of that port.
#[tactic(auto, using(crate::proofs::leads::NodeLeads::runs_alike))]
pub fn runs_alone()
    ensures { RunsAlone }
{}
