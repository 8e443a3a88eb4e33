//! The commands `show` and `pack`: datagrams in hexadecimal to message lines, and back.
//!
//! [`run::show`] reads lines of hexadecimal and writes the message line of each one's datagram;
//! [`run::pack`] does the opposite. Both stop at the first line that they can't read:
//!
//! ```
//! let hex = b"030100070000000000000000616c70686100\n00\n";
//! let mut source = MemorySource::new(alloc, hex, &[])?;
//! let mut sink = MemorySink::new(alloc, &[])?;
//! assert!(matches!(show(alloc, &mut source, &mut sink), Outcome::Bad));
//! assert_eq!(sink.written(), b"masterreq 7 alpha\nbad 2 short\n");
//! ```
//!
//! # What is proved
//!
//! In parentheses are the contracts, clauses and definitions that say it.
//!
//! - `show` and `pack` accept exactly the lines that are a datagram's, with exactly its output (`comes`,
//!   `answers`, `complete`).
//! - `pack` gives back what `show` read, if that was the written spelling (`packs_what_was_shown`,
//!   `answer_to_what_was_shown`).
#![tactic(auto)]

mod hand_over;
pub mod laws;
mod pack;
pub mod run;
mod show;
