//! What no contract says: that each outcome does come.
ghost use Rattle.std.specs.Prelude.{◌≡◌, ◌≤◌, length};

use arrayvec::ArrayVec;
use std::alloc::{AllocError, Global};
use tsp_io::memory::{MemorySink, MemorySource};
use tsp_io::sink::Sink;
use tsp_lines::cause::Cause;
use tsp_lines::output::Output;
use tsp_lines::treat::{Outcome, treat_all};
use tsp_lines::treatment::{Stop, Treatment};

/// Gives up to three lines back; refuses the line `!`, a long line and an empty input, and passes a
/// limit at `#`.
#[derive(Drop)]
pub(crate) struct Echo {
    pub(crate) lines: u32,
}

impl Treatment for Echo {
    ghost meaning = { record {
      accepts = λ lines text. Unit {0};
      refuses = λ lines line cause. Unit {0};
      limits = λ lines line. Unit {0};
      full = λ lines. 3 ≤ length lines;
      ends = λ lines more. Unit {0};
      lacks = λ lines cause. Unit {0};
    } };

    ghost stands = { λ echo lines. echo.lines ≡ length lines };

    fn is_full(&self) -> bool {
        self.lines >= 3
    }

    fn treat<K: Sink>(&mut self, line: &[u8], out: &mut Output, sink: &mut K) -> Result<(), Stop> {
        match line {
            [b'!'] => Err(Stop::Bad(Cause::of(b"mark"))),
            [b'#'] => Err(Stop::Limit),
            _ => {
                self.lines = self.lines.saturating_add(1);
                let mut text = ArrayVec::<u8, 1025>::new();
                let _ = text.try_extend_from_slice(line);
                let _ = text.try_push(b'\n');
                out.put(sink, text.as_slice())?;
                Ok(())
            }
        }
    }

    fn refuse_long(&mut self, _start: &[u8]) -> Cause {
        Cause::of(b"long")
    }

    fn end<K: Sink>(&mut self, _output: &mut Output, _sink: &mut K) -> Result<(), Stop> {
        if self.lines > 0 {
            Ok(())
        } else {
            let mut words = ArrayVec::new();
            let _ = words.try_extend_from_slice(b"empty");
            Err(Stop::Bad(Cause::new(words)))
        }
    }
}

/// An input and its limit, the reads and the writes that fail, how its treatment should end, and what is written.
type Row = (
    &'static str,
    u32,
    &'static [u32],
    &'static [u32],
    Outcome,
    &'static str,
);

/// Whether an input that is read two octets at a time ends as the row says.
fn comes(alloc: Global, row: &Row) -> Result<bool, AllocError> {
    let (input, limit, reads, writes, outcome, written) = *row;
    let mut source = MemorySource::new(alloc, input.as_bytes(), reads)?.in_pieces(2);
    let mut sink = MemorySink::new(alloc, writes)?;
    let mut echo = Echo { lines: 0 };
    let ended = treat_all(alloc, u64::from(limit), &mut source, &mut sink, &mut echo);
    Ok(ended == outcome && sink.written() == written.as_bytes())
}

const OUTCOMES: &[Row] = &[
    ("a\nbb\n", 100, &[], &[], Outcome::Ok, "a\nbb\n"),
    ("a\nbb", 100, &[], &[], Outcome::Ok, "a\nbb\n"),
    ("", 100, &[], &[], Outcome::Bad, "bad 1 empty\n"),
    ("a\n!\nb\n", 100, &[], &[], Outcome::Bad, "a\nbad 2 mark\n"),
    ("a\n#", 100, &[], &[], Outcome::Limit, "a\nlimit 2\n"),
    ("a\nb\nc", 4, &[], &[], Outcome::Limit, "a\nb\nlimit 3\n"),
    ("a\nb\n", 3, &[], &[], Outcome::Limit, "a\nlimit 2\n"),
    ("a\nb\n", 4, &[], &[], Outcome::Ok, "a\nb\n"),
    ("a\nb\n", 100, &[1], &[], Outcome::ReadFault, "a\n"),
    ("a\nb\n", 100, &[], &[0], Outcome::WriteFault, ""),
    ("a\nb\n", 100, &[], &[1], Outcome::WriteFault, "a\n"),
    // A fourth line isn't allowed: the first octet of one passes a limit.
    ("a\nb\nc\n", 100, &[], &[], Outcome::Ok, "a\nb\nc\n"),
    (
        "a\nb\nc\nd",
        100,
        &[],
        &[],
        Outcome::Limit,
        "a\nb\nc\nlimit 4\n",
    ),
    (
        "a\nb\nc\nd",
        100,
        &[3],
        &[],
        Outcome::ReadFault,
        "a\nb\nc\n",
    ),
];

/// Each outcome comes where it should, with what is written up to then.
#[test]
fn outcomes_come(rt: HostRuntime) {
    for row in OUTCOMES {
        assert!(rt; comes(rt.alloc(), row) == Ok(true));
    }
}

/// How a line of so many octets ends.
fn outcome_of(alloc: Global, count: usize) -> Result<Outcome, AllocError> {
    let mut input = ArrayVec::<u8, 2048>::new();
    for _ in 0..count {
        let _ = input.try_push(b'x');
    }
    let _ = input.try_push(b'\n');
    let mut source = MemorySource::new(alloc, input.as_slice(), &[])?;
    let mut sink = MemorySink::new(alloc, &[])?;
    let mut echo = Echo { lines: 0 };
    Ok(treat_all(alloc, 2048, &mut source, &mut sink, &mut echo))
}

/// A line of 1,024 octets is accepted, and one of 1,025 is refused where it ends.
#[test]
fn long_lines_are_refused(rt: HostRuntime) {
    assert!(rt; outcome_of(rt.alloc(), 1024) == Ok(Outcome::Ok));
    assert!(rt; outcome_of(rt.alloc(), 1025) == Ok(Outcome::Bad));
}
