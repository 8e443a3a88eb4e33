//! The generator's command: makes a schedule from a number, runs it, and writes what came of it in one line.
//!
//! [`run::storm`] is the whole command. Its words (`StormWords` of `tsp_args`) are the number, 1 to 64 nodes, and
//! 1 to 200,000 events. [`making::Making`] makes the events one by one, each after the run of those before
//! it, since many take a datagram that the run so far has posted: call `begin` once and `step` for
//! each event. After each step `acts` are the lines that the event adds to the trace.
//!
//! ```
//! let words = StormWords { seed: 1, nodes: 1, events: 1 };
//! let mut sink = MemorySink::new(alloc, &[])?;
//! assert!(matches!(storm(alloc, &words, &mut sink), StormEnd::Done));
//! assert_eq!(sink.written(), b"events 1 posted 0 took 0 corrects 0 masters 0\n");
//! ```
//!
//! # What is proved
//!
//! In parentheses are the contracts, clauses and definitions that say it.
//!
//! - A storm writes the summary of the run of exactly the schedule that its number gives, or the number of
//!   the event for which there is no room (`ends`, `answers` of `storm`), and ends well if there is room and
//!   no write fails (`complete`).
//! - The runs of such schedules keep the promises, and their premises except Few (`storms_keep_promises`).
//!
//! # What is only tested
//!
//! - Storms worked out in rows.
//! - Others beside a plain program written by hand (`tools/test`).
#![tactic(auto)]

pub mod counts;
pub mod header;
pub mod laws;
pub mod making;
pub mod run;
pub mod summary;
