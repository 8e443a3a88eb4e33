//! The command `replay`: a schedule's lines go in, the trace of its run comes out.
//!
//! [`run::replay`] is the whole command. [`replay::Replay`] is its treatment of the lines: it reads them by
//! `Stage` of `tsp_schedule`, and hands each event to a `World` of `tsp_world`.
//!
//! ```
//! let schedule = b"tsp-schedule 1\ndrift 0\nnode a 0 1000 m\nat 0 boot 0 5\nend\n";
//! let mut source = MemorySource::new(alloc, schedule, &[])?;
//! let mut sink = MemorySink::new(alloc, &[])?;
//! assert!(matches!(replay(alloc, &mut source, &mut sink), Outcome::Ok));
//! assert_eq!(
//!     sink.written(),
//!     b"1 0 0 0 boot\n1 0 0 0 become starting\n1 0 0 0 arm quiet 80000000\n"
//! );
//! ```
//!
//! # What is proved
//!
//! In parentheses are the contracts, clauses and definitions that say it.
//!
//! - Exactly which lines may follow which, each refusal's cause, and the trace (`comes`, `answers` of
//!   `replay`).
//! - The text of a schedule isn't refused (`complete`), and is that of one schedule alone
//!   (`one_schedule_of_a_text`).
#![tactic(auto)]

pub mod laws;
mod line_text;
pub mod replay;
mod replayed;
pub mod run;
mod tell;
