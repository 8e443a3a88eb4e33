//! Theorems about clocks of a network that follows one master: how far they differ at each time.
//! Nothing here runs.
ghost use Rattle.tsp_progress.specs.AgreeUse.{AgreeUse};
ghost use Rattle.tsp_progress.specs.AgreesAlways.{ClockedRunsAgreeAlways, RunsAgreeAlways};
ghost use Rattle.tsp_progress.specs.AgreesFrom.{ClockedRunsAgreeFrom, RunsAgreeFrom};
ghost use Rattle.tsp_progress.specs.AgreesMeanwhile.{ClockedRunsAgreeMeanwhile, RunsAgreeMeanwhile};
ghost use Rattle.tsp_progress.specs.AgreesOn.{ClockedRunsAgreeUntilNext, RunsAgreeUntilNext};
ghost use Rattle.tsp_progress.specs.MeasuresTable.{ClockedRunsMeasureTable, RunsMeasureTable};
ghost use Rattle.tsp_progress.specs.OnePort.{ClockedRunsUseOnePort, RunsUseOnePort};
ghost use Rattle.tsp_progress.specs.SlewsTable.{ClockedRunsSlewTable, RunsSlewTable};
ghost use Rattle.tsp_progress.specs.TakesRounds.{ClockedRunsTakeRounds, RunsTakeRounds};
ghost use Rattle.tsp_progress.specs.TwoRoundsUse.{TwoRoundsUse};

/// A node that has one port does everything there. So it corrects its clock there alone.
pub fn runs_use_one_port()
    ensures { RunsUseOnePort }
{}

/// So it is in a run by any clocks.
pub fn clocked_runs_use_one_port()
    ensures { ClockedRunsUseOnePort }
{}

/// In a network that follows its master, and that the master has in its table, each Close has a
/// sample of each other node that stays, if it comes 242 s and `long` after all follow.
pub fn runs_measure_table()
    ensures { RunsMeasureTable }
{}

/// So it is in a run by any clocks.
pub fn clocked_runs_measure_table()
    ensures { ClockedRunsMeasureTable }
{}

/// At such a Close the master moves its own clock by the mean, and posts an ADJTIME to each other
/// node that stays, with the ticket of its best sample, and by the mean less the offset.
pub fn runs_slew_table()
    ensures { RunsSlewTable }
{}

/// So it is in a run by any clocks.
pub fn clocked_runs_slew_table()
    ensures { ClockedRunsSlewTable }
{}

/// At most `long` after such a Close each other node's clock has taken what the round corrects it
/// by, which rests on a reading of that round, and is left alone until the next Close.
pub fn runs_take_rounds()
    ensures { RunsTakeRounds }
{}

/// So it is in a run by any clocks.
pub fn clocked_runs_take_rounds()
    ensures { ClockedRunsTakeRounds }
{}

/// So from `long` after such a Close on, and until the next one, the clocks of any two nodes that
/// stay differ by at most the errors of two readings, and what their counters drift since.
pub fn runs_agree_until_next()
    ensures { RunsAgreeUntilNext }
{}

/// So it is in a run by any clocks.
pub fn clocked_runs_agree_until_next()
    ensures { ClockedRunsAgreeUntilNext }
{}

/// So all clocks of the network agree at each true time from 485 s and `long` after all follow on,
/// except for `long` after each Close: any two differ by at most twice the error of a reading, and
/// what counters drift in a round.
pub fn runs_agree_always()
    ensures { RunsAgreeAlways }
{}

/// So it is in a run by any clocks.
pub fn clocked_runs_agree_always()
    ensures { ClockedRunsAgreeAlways }
{}

/// And soon after a Close, too: at each true time from 728 s and `long` after all follow on,
/// without exception, any two clocks differ by at most four times the error of a reading, and what
/// counters drift in a round.
pub fn runs_agree_meanwhile()
    ensures { RunsAgreeMeanwhile }
{}

/// So it is in a run by any clocks.
pub fn clocked_runs_agree_meanwhile()
    ensures { ClockedRunsAgreeMeanwhile }
{}

/// So in a calm network that follows its master, and that may have begun as it liked, all clocks
/// agree from 1,015 s and three times `long` on, as long as the master gives up no round, and finds
/// no clock 34 years away: by then all nodes are in its table, and what began before is over.
pub fn runs_agree_from()
    ensures { RunsAgreeFrom }
{}

/// So it is in a run by any clocks.
pub fn clocked_runs_agree_from()
    ensures { ClockedRunsAgreeFrom }
{}

/// A run in which two clocks agree from 10 ms after a Close on, for which all that these laws ask
/// holds; and one in which a node leaves the table, and its clock stays behind.
pub fn agree_use()
    ensures { AgreeUse }
{}

/// A run of two rounds for which all holds that `runs_agree_always` asks for, and in which two
/// clocks agree.
pub fn two_rounds_use()
    ensures { TwoRoundsUse }
{}
