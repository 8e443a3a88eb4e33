//! Theorems about a network that has no master: it gets one. Nothing here runs.
ghost use Rattle.tsp_progress.specs.Headless.{ClockedRunsGetMaster, ClockedRunsGetMasterSoon};
ghost use Rattle.tsp_progress.specs.Headless.{RunsGetMaster, RunsGetMasterSoon};
ghost use Rattle.tsp_progress.specs.HeadlessUse.{HeadlessUse};
ghost use Rattle.tsp_progress.specs.Motives.{ClockedRunsHaveMotives, RunsHaveMotives};

/// In every run who backs somebody took his question for a vote, or stands itself; Elect and Search
/// are armed, and a port stands or becomes Loose, only for what asks for it; only masters call,
/// correct and send away, and only candidates ask for votes.
pub fn runs_have_motives()
    ensures { RunsHaveMotives }
{}

/// So it is in a run by any clocks.
pub fn clocked_runs_have_motives()
    ensures { ClockedRunsHaveMotives }
{}

/// A network of nodes with one port each, in which one node has a delay that is well shorter than
/// those of the others, isn't without a master for longer than `ELECT_MIN`, three times that
/// delay, a minute and eight times `long`.
pub fn runs_get_master()
    ensures { RunsGetMaster }
{}

/// So it is in a run by any clocks.
pub fn clocked_runs_get_master()
    ensures { ClockedRunsGetMaster }
{}

/// So it is from when its nodes have booted, a quiet time and 10 s later.
pub fn runs_get_master_soon()
    ensures { RunsGetMasterSoon }
{}

/// So it is in a run by any clocks.
pub fn clocked_runs_get_master_soon()
    ensures { ClockedRunsGetMasterSoon }
{}

/// A network in which a node stands and leads after 5 minutes, and two in which nobody leads for
/// longer than that: the delays are equal, or each Elect is looked at one tick more than 1 s late.
pub fn headless_use()
    ensures { HeadlessUse }
{}
