//! Theorems about a network in which one node leads: all come to follow it. Nothing here runs.
ghost use Rattle.tsp_progress.specs.Calling.{ClockedRunsCall, RunsCall};
ghost use Rattle.tsp_progress.specs.Gather.{ClockedRunsGather, RunsGather};
ghost use Rattle.tsp_progress.specs.GatherUse.{GatherUse};
ghost use Rattle.tsp_progress.specs.LeadFrom.{ClockedRunsComeToWinner, ClockedRunsLeadFromWin};
ghost use Rattle.tsp_progress.specs.LeadFrom.{RunsComeToWinner, RunsLeadFromWin};
ghost use Rattle.tsp_progress.specs.LeadOnly.{ClockedRunsComeToLeader, ClockedRunsLeadOnly};
ghost use Rattle.tsp_progress.specs.LeadOnly.{RunsComeToLeader, RunsLeadOnly};
ghost use Rattle.tsp_progress.specs.Settles.{ClockedRunsSettle, RunsSettle};

/// A port comes to follow another only when that calls it, by a MASTERUP, a MASTERACK or a QUIT,
/// which only masters post; only candidates ask for votes; and a follower waits anew only by what
/// its master says, or for a candidate.
pub fn runs_call()
    ensures { RunsCall }
{}

/// So it is in a run by any clocks.
pub fn clocked_runs_call()
    ensures { ClockedRunsCall }
{}

/// In a calm network in which one node leads and no other does all nodes that stay follow it, from
/// 484 s and three times `long` after some place on, and 609 s and `long` more for each of them:
/// those that follow another come one by one at least, when their Elects ring.
pub fn runs_gather()
    ensures { RunsGather }
{}

/// So it is in a run by any clocks.
pub fn clocked_runs_gather()
    ensures { ClockedRunsGather }
{}

/// Where datagrams have been delivered for 15 s, and nothing comes from elsewhere, a node that is
/// master alone for `long` leads on, and no other node wins.
pub fn runs_lead_only()
    ensures { RunsLeadOnly }
{}

/// So it is in a run by any clocks.
pub fn clocked_runs_lead_only()
    ensures { ClockedRunsLeadOnly }
{}

/// So all come to follow a node that is master alone then, and do so on.
pub fn runs_come_to_leader()
    ensures { RunsComeToLeader }
{}

/// So it is in a run by any clocks.
pub fn clocked_runs_come_to_leader()
    ensures { ClockedRunsComeToLeader }
{}

/// So does one that is master where no other node has been for `long`, as one that has just won in
/// a network without a master.
pub fn runs_lead_from_win()
    ensures { RunsLeadFromWin }
{}

/// So it is in a run by any clocks.
pub fn clocked_runs_lead_from_win()
    ensures { ClockedRunsLeadFromWin }
{}

/// So all come to follow it, and do so on.
pub fn runs_come_to_winner()
    ensures { RunsComeToWinner }
{}

/// So it is in a run by any clocks.
pub fn clocked_runs_come_to_winner()
    ensures { ClockedRunsComeToWinner }
{}

/// A calm network settles, in elections that aren't strict: one of its nodes comes to lead, and all
/// others follow it for ever, from 513 s, four times `long`, the longest stretch without a master,
/// and what it takes until all others follow, after some place on.
pub fn runs_settle()
    ensures { RunsSettle }
{}

/// So it is in a run by any clocks.
pub fn clocked_runs_settle()
    ensures { ClockedRunsSettle }
{}

/// A run in which a node that follows another, which is gone, hears three calls of the one that
/// leads, then stands for election, is sent away and follows it, and one in which what the one that
/// leads sends is lost, so that a node stands for election beside it.
pub fn gather_use()
    ensures { GatherUse }
{}
