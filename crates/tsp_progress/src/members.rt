//! Theorems about the slaves of a master: who follows it joins them, and stays. Nothing here runs.
ghost use Rattle.tsp_progress.specs.CorrectsApart.{ClockedRunsCorrectApart, RunsCorrectApart};
ghost use Rattle.tsp_progress.specs.MembersUse.{MembersUse};
ghost use Rattle.tsp_progress.specs.NoDate.{ClockedRunsTakeNoDate, RunsTakeNoDate};
ghost use Rattle.tsp_progress.specs.ReportsSoon.{ClockedRunsReport, RunsReport};
ghost use Rattle.tsp_progress.specs.SettlesTable.{ClockedRunsSettleTable, RunsSettleTable};
ghost use Rattle.tsp_progress.specs.StaysIn.{ClockedRunsStayMember, RunsStayMember};
ghost use Rattle.tsp_progress.specs.TableKept.{ClockedRunsLeave, RunsLeave};

/// In every run a slave leaves its master's table, other than at a change of the role or a boot,
/// only when a correction to it was given up, when a round closes that measured it and has no
/// sample of it, or in a step that sets the date; and a peer joins it only when its SLAVEUP with a
/// ticket is taken, at a master in whose table it isn't.
pub fn runs_leave()
    ensures { RunsLeave }
{}

/// So it is in a run by any clocks.
pub fn clocked_runs_leave()
    ensures { ClockedRunsLeave }
{}

/// In a network that follows its master, and in which datagrams are delivered, each follower that
/// stays is in the master's table within 242 s and twice `long` of each true time: the master calls
/// it, it reports its ticket, which is less than 32,768, and joins.
pub fn runs_report()
    ensures { RunsReport }
{}

/// So it is in a run by any clocks.
pub fn clocked_runs_report()
    ensures { ClockedRunsReport }
{}

/// In a calm network no node takes a date later than 10 s and `long` after that began: clients are
/// outside, and what a follower had passed on before is over.
pub fn runs_take_no_date()
    ensures { RunsTakeNoDate }
{}

/// So it is in a run by any clocks.
pub fn clocked_runs_take_no_date()
    ensures { ClockedRunsTakeNoDate }
{}

/// In a calm network that follows its master, in which datagrams take less than a second and no
/// clock comes near the end of its range, the corrections that the master begins to one follower,
/// later than 15 s after that began, begin at least 8 s apart.
pub fn runs_correct_apart()
    ensures { RunsCorrectApart }
{}

/// So it is in a run by any clocks.
pub fn clocked_runs_correct_apart()
    ensures { ClockedRunsCorrectApart }
{}

/// So each finds its follower ready, and no follower leaves the master's table later than 40 s
/// after that began.
pub fn runs_stay_member()
    ensures { RunsStayMember }
{}

/// So it is in a run by any clocks.
pub fn clocked_runs_stay_member()
    ensures { ClockedRunsStayMember }
{}

/// So all followers are in their master's table, for ever, from 282 s and twice `long` later on.
pub fn runs_settle_table()
    ensures { RunsSettleTable }
{}

/// So it is in a run by any clocks.
pub fn clocked_runs_settle_table()
    ensures { ClockedRunsSettleTable }
{}

/// A run in which a follower joins its master's table and stays in it, and ones in which it leaves:
/// the requests of a round are lost, the acknowledgment of a correction is, or the date is set.
pub fn members_use()
    ensures { MembersUse }
{}
