//! Theorems: small runs, written out, in which the rules give exactly the acts that are claimed. Nothing
//! here runs.
ghost use Rattle.tsp_rules.specs.Corrections.{CorrectsOnce};
ghost use Rattle.tsp_rules.specs.HoldScript.{HoldsOne};
ghost use Rattle.tsp_rules.specs.LateClose.{ClosesLate};
ghost use Rattle.tsp_rules.specs.OrdinaryUse.{OrdinaryUse};
ghost use Rattle.tsp_rules.specs.RivalsScript.{MeetsRival};
ghost use Rattle.tsp_rules.specs.ClientsScript.{AnswersClients};
ghost use Rattle.tsp_rules.specs.RolesScript.{HearsMasters};
ghost use Rattle.tsp_rules.specs.ResolutionScript.{ResolvesOnce};
ghost use Rattle.tsp_rules.specs.RoundsScript.{ClosesOtherwise};
ghost use Rattle.tsp_rules.specs.DateScript.{DatesOnce};
ghost use Rattle.tsp_rules.specs.StrictScript.{WinsByMajority};
ghost use Rattle.tsp_rules.specs.GatewayScript.{JoinsNetworks};

/// Two nodes: an election, a first setting of the other clock, one round.
#[tactic(auto, using(crate::proofs::ScriptsAnswered::ordinary_use))]
pub fn ordinary_use()
    ensures { OrdinaryUse }
{}

/// A node backs the first of two candidates, and the second once its hold of the first is over; at a boot it
/// forgets both.
#[tactic(auto, using(crate::proofs::ScriptsAnswered::holds_one))]
pub fn holds_one()
    ensures { HoldsOne }
{}

/// A master finds a rival, sends it away, and follows the sender of a QUIT.
#[tactic(auto, using(crate::proofs::ScriptsAnswered::meets_rival))]
pub fn meets_rival()
    ensures { MeetsRival }
{}

/// A Close that comes one second after its deadline still acts; one tick later it doesn't.
#[tactic(auto, using(crate::proofs::ScriptsAnswered::closes_late))]
pub fn closes_late()
    ensures { ClosesLate }
{}

/// A follower takes a repeated correction once, ignores one that comes too soon, and slews its clock.
#[tactic(auto, using(crate::proofs::ScriptsAnswered::corrects_once))]
pub fn corrects_once()
    ensures { CorrectsOnce }
{}

/// Anybody's questions are answered, some of them in the quiet time too.
#[tactic(auto, using(crate::proofs::ScriptsAnswered::answers_clients))]
pub fn answers_clients()
    ensures { AnswersClients }
{}

/// A follower reports another master to its own, a candidate gives way, and alarms come late.
#[tactic(auto, using(crate::proofs::ScriptsAnswered::hears_masters))]
pub fn hears_masters()
    ensures { HearsMasters }
{}

/// Of two masters one sends the other away, and then hears of slaves, conflicts and candidates.
#[tactic(auto, using(crate::proofs::ScriptsAnswered::resolves_once))]
pub fn resolves_once()
    ensures { ResolvesOnce }
{}

/// Rounds with a repeated reply, a probe that comes too late, a clock too far away to be averaged, a peer that
/// never answers, and a mean that would take the clock out of its range.
#[tactic(auto, using(crate::proofs::ScriptsAnswered::closes_otherwise))]
pub fn closes_otherwise()
    ensures { ClosesOtherwise }
{}

/// A client sets the network's date through a follower, and it is set once.
#[tactic(auto, using(crate::proofs::ScriptsAnswered::dates_once))]
pub fn dates_once()
    ensures { DatesOnce }
{}

/// A strict election is won by a majority, and by half of the peers it isn't.
#[tactic(auto, using(crate::proofs::ScriptsAnswered::wins_by_majority))]
pub fn wins_by_majority()
    ensures { WinsByMajority }
{}

/// A node with two ports follows on both and is corrected on the lower one; LOOPs are passed on
/// with one hop less.
#[tactic(auto, using(crate::proofs::ScriptsAnswered::joins_networks))]
pub fn joins_networks()
    ensures { JoinsNetworks }
{}
