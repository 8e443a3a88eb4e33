//! The command `audit`: a schedule's lines come in, and after them the lines of a trace that some program
//! claims for that schedule. Out comes one line, the verdict on what is claimed.
//!
//! [`run::check`] is the whole command. It reads all of its input before it treats the first line:
//!
//! ```
//! // One node boots, and of that a program claims one line.
//! let input = b"tsp-schedule 1\ndrift 0\nnode a 0 1000 m\nat 0 boot 0 5\nend\n1 0 0 0 boot\n";
//! let mut source = MemorySource::new(alloc, input, &[])?;
//! let mut sink = MemorySink::new(alloc, &[])?;
//! assert!(matches!(check(alloc, &mut source, &mut sink), Outcome::Ok));
//! assert_eq!(sink.written(), b"holds\n");
//! ```
//!
//! | Line written | Outcome | What it says |
//! |---|---|---|
//! | `holds` | `Ok` | no part fails |
//! | `fails Dn E` | `Ok` | E is the first event up to which a part fails, n the least that fails up to it |
//! | `bad LINE CAUSE` | `Bad` | this line, or the end of the input, can't follow the lines before it |
//! | `limit LINE` | `Limit` | it passes a limit: 16 nodes, 20,000 events, 20,000 claimed lines, 64 MiB of input |
//!
//! Lines and events are numbered from 1. A *part* is a promise that every run keeps; parts have the numbers 12 to
//! 16, and `Verdict` of `tsp_audit` names them. With `ReadFault` nothing is written, with `WriteFault` a part of the
//! line that isn't all of it, and with `OutOfMemory` a part of it, from its beginning, or all.
//!
//! Three words are used everywhere below:
//!
//! - A claimed line *fits* if the schedule and the lines before it allow it: it has the number, the node and the tick
//!   of its event and a port of the node, posts are numbered from 0, and a `took` takes what the event brings.
//! - An event *lacks* something if its lines are all there and one is missing: a boot needs its `boot`, and octets
//!   need their `took`, as does a take that has lines.
//! - An event is *passed* once all of its lines were read and it lacks nothing. The first event that isn't passed yet
//!   is the event *at hand*: the next line that fits belongs to it, or to a later one, and then it is passed first.
//!
//! The parts of this crate are called in this order:
//!
//! 1. [`check::Check`] gets the lines from `tsp_lines`, one by one.
//! 2. Up to `end`, a [`listing::Listing`] collects the schedule's events. They are refused as in a replay, but for
//!    two things: of a take only its time is looked at, and there is room for fewer.
//! 3. After `end`, a [`claim_reader::ClaimReader`] takes each claimed line, if it fits, and passes events.
//! 4. At the end of the input it passes the events that are left. Only then is it known which premises the whole
//!    schedule keeps: no datagram is forged, none is late, no two boots have one word. Some parts ask for them.
//! 5. `judge` of the reader hands the history that it has to an `Audit` of `tsp_audit`, which judges it event by event,
//!    and the verdict is written. Whether a line fits is asked once, when it is read.
//!
//! # What is proved
//!
//! In parentheses are the contracts, clauses and definitions that say it.
//!
//! - An audit's input is accepted and refused exactly as defined, line by line, nothing is written before it
//!   was read to its end, and the answer is the one verdict on what is claimed, under the premises that the
//!   whole schedule keeps (`comes`, `answers`, `gathered`, `unwritten` of `check`).
//! - A schedule with lines that fit it isn't refused (`complete`).
//! - At each place one thing at most may follow, and the verdict is one (`definite_audit`).
//!
//! # What is only tested
//!
//! - Rows of the refusals and verdicts.
//! - Through the program every example's trace, changed fields and the limits.
//!
//! # What is neither proved nor tested
//!
//! - How fast it is.
#![tactic(auto)]

mod check;
mod claim_reader;
pub mod laws;
mod listing;
mod refusing;
pub mod run;
mod verdict;
mod verdict_text;
