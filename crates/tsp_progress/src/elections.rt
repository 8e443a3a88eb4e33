//! Theorems about elections, also those that aren't strict. Nothing here runs.
ghost use Rattle.tsp_progress.specs.AsksAll.{ClockedRunsAsk, RunsAsk};
ghost use Rattle.tsp_progress.specs.ElectUse.{ElectUse};
ghost use Rattle.tsp_progress.specs.LoneWins.{ClockedRunsWinAlone, RunsWinAlone};
ghost use Rattle.tsp_progress.specs.OneAtATime.{ClockedRunsElectOne, RunsElectOne};
ghost use Rattle.tsp_progress.specs.WinUse.{WinUse};
ghost use Rattle.tsp_progress.specs.WinsUnopposed.{ClockedRunsWin, RunsWin};

/// Who stands for election backs itself, and asks each other member of its network for its vote, in
/// the same step.
pub fn runs_ask()
    ensures { RunsAsk }
{}

/// So it is in a run by any clocks.
pub fn clocked_runs_ask()
    ensures { ClockedRunsAsk }
{}

/// Where datagrams are delivered in time, and twice that time is less than `TRIES` times `RETRY`, 3
/// s, of two candidatures of different nodes that begin near each other the later one loses: from
/// the earlier one until twice that time after the later one it is less than `HOLD`, 60 s.
pub fn runs_elect_one()
    ensures { RunsElectOne }
{}

/// So it is in a run by any clocks.
pub fn clocked_runs_elect_one()
    ensures { ClockedRunsElectOne }
{}

/// Two candidatures at once, of which the later one loses, and runs in which it wins: datagrams take
/// 1.6 s, or are lost, the earlier candidate boots, a vote is forged, or it stands 300 s later.
pub fn elect_use()
    ensures { ElectUse }
{}

/// Where nodes are looked at in time, and elections aren't strict, a candidate that takes no REFUSE,
/// QUIT, MASTERUP or MASTERACK of a peer becomes master within `WINDOW`, 5 s, and `late` after it
/// stood. It takes none if none was posted to it since 30 s before it stood.
pub fn runs_win()
    ensures { RunsWin }
{}

/// So it is in a run by any clocks.
pub fn clocked_runs_win()
    ensures { ClockedRunsWin }
{}

/// Candidates that nobody opposes, and win, and three that don't: elections are strict, the Window is
/// one tick too late, or it is refused.
pub fn win_use()
    ensures { WinUse }
{}

/// So does a candidate that whoever takes its question may back, if no master says anything to it.
pub fn runs_win_alone()
    ensures { RunsWinAlone }
{}

/// So it is in a run by any clocks.
pub fn clocked_runs_win_alone()
    ensures { ClockedRunsWinAlone }
{}
