//! Theorems about every schedule. Nothing here runs.
ghost use Rattle.tsp_run.specs.AnswerOctetsBroken.{AnswerOctetsBreak};
ghost use Rattle.tsp_run.specs.Clocked.{ClockedRunsFit, ClockedRunsKeepPremises};
ghost use Rattle.tsp_run.specs.Clocked.{ClockedRunsKeepPromises, ClocksAreSet, RunsByOwnClocks};
ghost use Rattle.tsp_run.specs.Possible.{AcceptedIsPossible};
ghost use Rattle.tsp_run.specs.Premised.{PossibleRunsKeepPremises, RunsKeepPremises};
ghost use Rattle.tsp_run.specs.Setting.{EachIsSet, PossibleRunsFit, PossibleRunsKeepPromises};
ghost use Rattle.tsp_run.specs.Setting.{RunsFit, RunsKeepPromises};
ghost use Rattle.tsp_run.specs.GatewayRun.{JoinsTwoNetworks};

/// The history of every accepted schedule fits, whatever octets its events bring: each line is one
/// that the lines before it allow, and each step ends as it must.
pub fn runs_fit()
    ensures { RunsFit }
{}

/// The history of every accepted schedule keeps the promises, each under the premises that it
/// needs.
pub fn runs_keep_promises()
    ensures { RunsKeepPromises }
{}

/// The promise of the octets of answers says something: small histories break it.
#[tactic(auto, using(crate::proofs::BrokenOctets::answer_octets_break))]
pub fn answer_octets_can_be_broken()
    ensures { AnswerOctetsBreak }
{}

/// A premise of the promises holds of a run if its counterpart holds of the text of its schedule,
/// or of that and its trace, so a reader can check it there.
#[tactic(auto, using(crate::proofs::RunPremises::runs_keep_premises))]
pub fn runs_keep_premises()
    ensures { RunsKeepPremises }
{}

/// The history of every possible schedule fits: of every one whose events can happen, however many
/// they are, and whose run posts fewer than 2^64 datagrams. A replay's limits aren't asked for.
pub fn possible_runs_fit()
    ensures { PossibleRunsFit }
{}

/// The history of every possible schedule keeps the promises, each under the premises that it
/// needs.
pub fn possible_runs_keep_promises()
    ensures { PossibleRunsKeepPromises }
{}

/// A premise of the promises holds of a possible schedule's run if its counterpart holds of the
/// schedule's text, or of that and what the run posts.
#[tactic(auto, using(crate::proofs::RunPremises::possible_runs_keep_premises))]
pub fn possible_runs_keep_premises()
    ensures { PossibleRunsKeepPremises }
{}

/// A run by the clocks of its header is the run of a schedule.
#[tactic(auto, using(crate::proofs::OwnClocks::runs_by_own_clocks))]
pub fn runs_by_own_clocks()
    ensures { RunsByOwnClocks }
{}

/// The history of possible events fits, by any clocks: each node's counter is any that stays within
/// the drift, and its wall clock is any in each of its lives.
pub fn clocked_runs_fit()
    ensures { ClockedRunsFit }
{}

/// The history of possible events keeps the promises, by any clocks, each under the premises that
/// it needs.
pub fn clocked_runs_keep_promises()
    ensures { ClockedRunsKeepPromises }
{}

/// A premise of the promises holds of a run by any clocks if its counterpart holds of its events,
/// or of them and of what the run posts.
#[tactic(auto, using(crate::proofs::RunPremises::clocked_runs_keep_premises))]
pub fn clocked_runs_keep_premises()
    ensures { ClockedRunsKeepPremises }
{}

/// Clocks whose counters stay within a header's drift have a setting, so `clocked_runs_fit` and
/// `clocked_runs_keep_promises` say something of each.
#[tactic(auto, using(crate::proofs::SettingLemmas::clocks_are_set))]
pub fn clocks_are_set()
    ensures { ClocksAreSet }
{}

/// Every accepted schedule is possible: what isn't refused can happen, and within a replay's limits
/// fewer than 2^64 datagrams are posted.
pub fn accepted_is_possible()
    ensures { AcceptedIsPossible }
{}

/// Every header has a setting, so `runs_fit` and `runs_keep_promises` say something of each.
pub fn each_is_set()
    ensures { EachIsSet }
{}

/// A small run: a node that follows a master on each of two networks is corrected on one of them,
/// and an event on a port that it doesn't have is refused.
pub fn joins_two_networks()
    ensures { JoinsTwoNetworks }
{}
