//! By the rules each deed does what it owes to its port's past: laws, which do nothing.
ghost use Rattle.tsp_promises.specs.NodeRuns.{NodesFit};
ghost use Rattle.tsp_promises.specs.Runs.{RulesFit};
ghost use Rattle.tsp_promises.specs.Sound.{AnswersAreSound};

/// A port that has done nothing yet and then runs by the rules does only what fits, whatever it is
/// given and whenever.
#[tactic(auto, using(crate::proofs::leads::RunLeads::rules_fit))]
pub fn rules_fit()
    ensures { RulesFit }
{}

/// A node that runs by the rules over several ports does only what fits on each of them.
#[tactic(auto, using(crate::proofs::leads::NodeLeads::nodes_fit))]
pub fn nodes_fit()
    ensures { NodesFit }
{}

/// If the parts of all that was taken are in their ranges, so are those of what the rules post. So
/// the octets in which it is written are read back as what was posted.
pub fn answers_are_sound()
    ensures { AnswersAreSound }
{}
