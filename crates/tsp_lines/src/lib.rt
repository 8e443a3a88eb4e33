//! Commands that read lines and write text. Each line is treated as soon as its line feed was read, and
//! its output is written before more of the input is read.
//!
//! A command implements [`treatment::Treatment`], with its meaning: which lines it accepts and what it
//! writes for them. Then it calls [`treat::treat_all`], or [`treat_gathered::treat_gathered`] where the
//! whole input has to be read first. The limit of octets, long lines, refusals, faults of reads and
//! writes and lack of memory are handled here, for all commands alike.
//!
//! ```
//! let mut source = MemorySource::new(alloc, b"first\nsecond\n", &[])?;
//! let mut sink = MemorySink::new(alloc, &[])?;
//! // `treatment` writes each line as it is, and refuses `second` for the cause `word`.
//! let outcome = treat_all(alloc, MOST_INPUT, &mut source, &mut sink, &mut treatment);
//! assert!(matches!(outcome, Outcome::Bad));
//! assert_eq!(sink.written(), b"first\nbad 2 word\n");
//! ```
//!
//! A [`reader::LineReader`] gives the lines, and an [`output::Output`] gathers what is to be written.
//! `docs/LINES.md` says more.
//!
//! # What is proved
//!
//! In parentheses are the contracts, clauses and definitions that say it.
//!
//! - What each outcome says of input and output, for any treatment of lines (`comes`, `answers` of
//!   `treat_all`).
//! - No output is held back over a read (`keeps_up`).
//! - An input has one answer (`one_answer`).
//! - The same of an input that is first read whole, but that nothing is written before a read fault (`comes`,
//!   `gathered`, `unwritten` of `treat_gathered`).
//!
//! # What is only tested
//!
//! - Each outcome but out of memory comes if it should.
//! - Long lines are refused.
//!
//! # What is neither proved nor tested
//!
//! - How fast it is.
#![tactic(auto)]

mod buffer;
pub mod cause;
mod gather;
mod gathered;
pub mod laws;
pub mod limits;
pub mod line_feed;
pub mod next;
pub mod output;
mod progress;
pub mod reader;
pub mod refusal;
pub mod treat;
pub mod treat_gathered;
pub mod treatment;
