//! Theorems about masters that find each other. Nothing here runs.
ghost use Rattle.std.specs.Prelude.{List};
ghost use Rattle.tsp_base.specs.History.{Line};
ghost use Rattle.tsp_base.specs.Words.{HeaderValue};
ghost use Rattle.tsp_progress.specs.ByTable.{ByTable};
ghost use Rattle.tsp_progress.specs.LeadOnUse.{LeadOnUse};
ghost use Rattle.tsp_progress.specs.MastersTell.{ClockedRunsTell, RunsTell};
ghost use Rattle.tsp_progress.specs.NoneBeside.{ClockedRunsLeadOn, RunsLeadOn};
ghost use Rattle.tsp_progress.specs.OneLeft.{ClockedRunsHaveOneLeft, RunsHaveOneLeft};
ghost use Rattle.tsp_progress.specs.OneLeftUse.{OneLeftUse};
ghost use Rattle.tsp_progress.specs.OneStops.{ClockedRunsLeaveOne, RunsLeaveOne};
ghost use Rattle.tsp_progress.specs.Resolving.{AllResolve, ClockedRunsAskRivals, RunsAskRivals};
ghost use Rattle.tsp_progress.specs.RivalsFound.{ClockedRunsFindRivals, RunsFindRivals};
ghost use Rattle.tsp_progress.specs.RivalsQuit.{ClockedRunsQuitRivals, ClockedRunsStopByQuit};
ghost use Rattle.tsp_progress.specs.RivalsQuit.{RunsQuitRivals, RunsStopByQuit};
ghost use Rattle.tsp_progress.specs.RivalsStay.{RivalsStay};
ghost use Rattle.tsp_progress.specs.RivalsUse.{RivalsUse};

/// A master that hears of another looks for rivals at once: it arms Resolve, and asks each other
/// peer who else is master. While it does so, who answers is a rival.
pub fn all_resolve()
    ensures { (header : HeaderValue) (world : List Line) → ByTable header world
        → AllResolve header world }
{}

/// Wherever a port arms Resolve it didn't look for rivals before, and asks each other peer who
/// else is master, in the same step.
pub fn runs_ask_rivals()
    ensures { RunsAskRivals }
{}

/// So it is in a run by any clocks.
pub fn clocked_runs_ask_rivals()
    ensures { ClockedRunsAskRivals }
{}

/// A master whose node has no other port, and is looked at within `SLACK`, tells each other member
/// of its network that it is master, within `ROUND`, 240 s, and `late` of each tick.
pub fn runs_tell()
    ensures { RunsTell }
{}

/// So it is in a run by any clocks.
pub fn clocked_runs_tell()
    ensures { ClockedRunsTell }
{}

/// Where datagrams are delivered in time, and twice that time is less than `WINDOW`, 5 s, a master
/// that looks for rivals knows each other master that answers before its Resolve is due.
pub fn runs_find_rivals()
    ensures { RunsFindRivals }
{}

/// So it is in a run by any clocks.
pub fn clocked_runs_find_rivals()
    ensures { ClockedRunsFindRivals }
{}

/// A master that is looked at within `SLACK` sends each rival away, at most `late` after its
/// Resolve is due.
pub fn runs_quit_rivals()
    ensures { RunsQuitRivals }
{}

/// So it is in a run by any clocks.
pub fn clocked_runs_quit_rivals()
    ensures { ClockedRunsQuitRivals }
{}

/// Where datagrams are delivered in time, a QUIT reaches its addressee in time, and a master that
/// it reaches follows its sender.
pub fn runs_stop_by_quit()
    ensures { RunsStopByQuit }
{}

/// So it is in a run by any clocks.
pub fn clocked_runs_stop_by_quit()
    ensures { ClockedRunsStopByQuit }
{}

/// So of two masters on one network, each of a node with no other port, one stops being master: no
/// later than one `ROUND`, two times `WINDOW`, 250 s, three times `late`, and twice the time that
/// datagrams take, after both are master, by a clock without drift.
pub fn runs_leave_one()
    ensures { RunsLeaveOne }
{}

/// So it is in a run by any clocks.
pub fn clocked_runs_leave_one()
    ensures { ClockedRunsLeaveOne }
{}

/// Beside a master that leads on, and has led for 5 s, no candidate wins that asks it for its
/// vote, also if a QUIT to it is open already: that comes before it stands, and keeps it from
/// standing, or ends its candidature.
pub fn runs_lead_on()
    ensures { RunsLeadOn }
{}

/// So it is in a run by any clocks.
pub fn clocked_runs_lead_on()
    ensures { ClockedRunsLeadOn }
{}

/// So of two nodes of one network, each with no other port, at most one is master from then on,
/// and 20 s, if twice the time that datagrams take is less than 3 s, none lives longer than 30 s,
/// none is forged, no node boots, and none is asked from outside to stand.
pub fn runs_have_one_left()
    ensures { RunsHaveOneLeft }
{}

/// So it is in a run by any clocks.
pub fn clocked_runs_have_one_left()
    ensures { ClockedRunsHaveOneLeft }
{}

/// A run in which two nodes lead, find each other, and one follows the other.
pub fn rivals_use()
    ensures { RivalsUse }
{}

/// Runs in which both stay: datagrams are lost, or take 2.6 s, or nodes are looked at too late, or
/// no longer; and one in which both stay until 5 microseconds before the bound.
pub fn rivals_stay()
    ensures { RivalsStay }
{}

/// A run in which one of two masters is left, and one whose datagrams are lost, so that both are.
pub fn one_left_use()
    ensures { OneLeftUse }
{}

/// A run in which a master hears of a candidate twice, and sends it away already the second time.
pub fn lead_on_use()
    ensures { LeadOnUse }
{}
