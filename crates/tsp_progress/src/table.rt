//! Theorems about what a port does at once. Nothing here runs.
ghost use Rattle.std.specs.Prelude.{List};
ghost use Rattle.tsp_base.specs.History.{Line};
ghost use Rattle.tsp_base.specs.Words.{HeaderValue};
ghost use Rattle.tsp_progress.specs.ByTable.{ClockedRunsByTable, RunsByTable, ByTable};
ghost use Rattle.tsp_progress.specs.Corrects.{AllCorrect};
ghost use Rattle.tsp_progress.specs.Heeds.{AllHeed};
ghost use Rattle.tsp_progress.specs.Measures.{AllMeasure};
ghost use Rattle.tsp_progress.specs.TableUse.{TableUse};

/// A port does at once what the table has for an alarm that goes off, and for a datagram that it
/// takes: the acts of that row come next on it, in the same step.
pub fn runs_by_table()
    ensures { RunsByTable }
{}

/// So does a port of a run by any clocks.
pub fn clocked_runs_by_table()
    ensures { ClockedRunsByTable }
{}

/// So it does at once what its role asks for when it takes a message of a peer: it follows, votes,
/// answers, takes in a slave, obeys its master, and ends its sends.
pub fn all_heed()
    ensures { (header : HeaderValue) (world : List Line) → ByTable header world → AllHeed header world }
{}

/// So a close of a round moves the master's own clock, where its port leads it, and then corrects
/// each measured peer; and when a resolution ends, a QUIT begins to each rival.
pub fn all_correct()
    ensures { (header : HeaderValue) (world : List Line) → ByTable header world → AllCorrect header world }
{}

/// So a port answers a stamp request, and a master takes a sample from a reply.
pub fn all_measure()
    ensures { (header : HeaderValue) (world : List Line) → ByTable header world → AllMeasure header world }
{}

/// A run in which a node finds its master, joins it, is set, measured and corrected; one in which a
/// port in its quiet time doesn't heed its peers; and a history that isn't by the table.
pub fn table_use()
    ensures { TableUse }
{}
