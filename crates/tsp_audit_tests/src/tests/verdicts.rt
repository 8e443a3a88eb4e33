//! Verdicts on whole inputs.
use crate::tests::auditing::Answer;
use crate::tests::inputs::comes;
use crate::tests::rows::TOO_SOON;
use std::alloc::{AllocError, Global};
use tsp_lines::treat::Outcome;

/// The header of two nodes whose clocks don't drift.
const TWO: &str = "tsp-schedule 1\ndrift 0\nnode a 0 0 s\nnode b 0 0 s\n";

/// The first rows as one input, as many as these: the schedule with their events, and then their
/// lines.
fn input_of(
    alloc: Global,
    rows: &[(&str, &str, Answer)],
    count: usize,
) -> Result<String, AllocError> {
    let mut input = String::from_str(alloc, TWO)?;
    for (event, _, _) in rows.iter().take(count) {
        input.push_str(event)?;
        input.push('\n')?;
    }
    input.push_str("end\n")?;
    for (_, text, _) in rows.iter().take(count) {
        input.push_str(text)?;
        input.push('\n')?;
    }
    Ok(input)
}

/// Whether the audit of the first rows, as many as these, ends with this verdict.
fn judges(
    alloc: Global,
    rows: &[(&str, &str, Answer)],
    count: usize,
    verdict: &str,
) -> Result<bool, AllocError> {
    let input = input_of(alloc, rows, count)?;
    comes(alloc, &[input.as_str()], &[], Outcome::Ok, verdict)
}

/// A clock that moves again too soon fails at its event, and not before it.
#[test]
fn a_second_correction_fails(rt: HostRuntime) {
    for (count, verdict) in [(5, "holds\n"), (6, "fails \x4414 6\n")] {
        assert!(rt; judges(rt.alloc(), TOO_SOON, count, verdict) == Ok(true));
    }
}
