//! Inputs, each with how its audit ends and what is written.
use crate::tests::inputs::{ANSWERED, ASKED, comes};
use tsp_lines::treat::Outcome;

/// A header of 16 nodes.
const NODES: &str = "\
tsp-schedule 1
drift 0
node a 0 0 m
node a 0 0 m
node a 0 0 m
node a 0 0 m
node a 0 0 m
node a 0 0 m
node a 0 0 m
node a 0 0 m
node a 0 0 m
node a 0 0 m
node a 0 0 m
node a 0 0 m
node a 0 0 m
node a 0 0 m
node a 0 0 m
node a 0 0 m
";

/// Texts that are one input, the reads that fail, how the audit ends, and what is written. A run
/// keeps every promise, also where no trace line of a turn is claimed. A line that isn't a trace's,
/// one that isn't allowed, and a boot whose line is missing after the schedule are refused. Nothing
/// is written where a read fails, though a line before it isn't a schedule's. The 17th node passes
/// a limit, if the header would accept it.
const ROWS: &[(&[&str], &[u32], Outcome, &str)] = &[
    (&[ASKED, ANSWERED], &[], Outcome::Ok, "holds\n"),
    (&[ASKED], &[], Outcome::Bad, "bad 8 history\n"),
    (&[ASKED, "end\n"], &[], Outcome::Bad, "bad 8 line\n"),
    (
        &[ASKED, ANSWERED, "2 0 0 10 abandon\n"],
        &[],
        Outcome::Bad,
        "bad 13 history\n",
    ),
    (&["x\n"], &[], Outcome::Bad, "bad 1 header\n"),
    (&["x\n"], &[1], Outcome::ReadFault, ""),
    (
        &[NODES, "node a 0 0 m\n"],
        &[],
        Outcome::Limit,
        "limit 19\n",
    ),
    (
        &[NODES, "node a 1 0 m\n"],
        &[],
        Outcome::Bad,
        "bad 19 header\n",
    ),
    (&[NODES, "end\n"], &[], Outcome::Ok, "holds\n"),
];

/// Each audit ends as its row says.
#[test]
fn audits_end(rt: HostRuntime) {
    for (texts, reads, outcome, written) in ROWS {
        let right = comes(rt.alloc(), texts, reads, *outcome, written);
        assert!(rt; right == Ok(true), "{written}");
    }
}
