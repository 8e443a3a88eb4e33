//! What no contract says of inputs that are read whole: that each outcome does come.

use crate::tests::lines::Echo;
use std::alloc::{AllocError, Global};
use tsp_io::memory::{MemorySink, MemorySource};
use tsp_io::source::{Got, Source};
use tsp_lines::treat::Outcome;
use tsp_lines::treat_gathered::treat_gathered;

/// An input, how many octets a read gives at most, its limit, the reads that fail, how its
/// treatment should end, what is written, and how many octets one more read gives.
type Row = (
    &'static str,
    usize,
    u32,
    &'static [u32],
    Outcome,
    &'static str,
    usize,
);

/// Whether an input ends as the row says.
fn comes(alloc: Global, row: &Row) -> Result<bool, AllocError> {
    let (input, most, limit, reads, outcome, written, next) = *row;
    if most == 0 {
        return Ok(false);
    }
    let mut source = MemorySource::new(alloc, input.as_bytes(), reads)?.in_pieces(most);
    let mut sink = MemorySink::new(alloc, &[])?;
    let mut echo = Echo { lines: 0 };
    let ended = treat_gathered(alloc, u64::from(limit), &mut source, &mut sink, &mut echo);
    let right = ended == outcome && sink.written() == written.as_bytes();
    Ok(right && source.read(&mut [0; 8]) == Got::Got(next))
}

/// A line is refused, with another one behind it, once the input was read to its end. Nothing is written where a read
/// fails, here the third, and all of the lines where none does. Of five octets where three are allowed, one past the
/// limit is read, and not another one.
const ROWS: &[Row] = &[
    ("a\n!\nb\n", 2, 6, &[], Outcome::Bad, "a\nbad 2 mark\n", 0),
    ("a\nb\n", 2, 100, &[], Outcome::Ok, "a\nb\n", 0),
    ("a\nb\n", 2, 100, &[2], Outcome::ReadFault, "", 0),
    ("a\nb\nc", 100, 3, &[], Outcome::Limit, "a\nlimit 2\n", 1),
];

/// Each input ends as its row says.
#[test]
fn gathered_inputs_end(rt: HostRuntime) {
    for row in ROWS {
        assert!(rt; comes(rt.alloc(), row) == Ok(true), "{}", row.0);
    }
}
