//! The command `icmp`: from records of ICMP Timestamp exchanges (RFC 792) to the differences of clocks, the
//! group of those that agree, and their corrections.
//!
//! [`average`] reads a line `NAME REQUEST REPLY ARRIVAL` for each exchange: two messages in hexadecimal,
//! and when the reply came, in milliseconds since midnight UT. It writes a line for each: the
//! difference and its error in milliseconds, or why there is none. At the end it writes the group, with
//! the own clock as 0, and the corrections, in microseconds. One exchange with alpha that takes 20
//! milliseconds, after which alpha is 5 milliseconds ahead, gives
//!
//! ```
//! alpha 5 11
//! group 2 0 5000 2500
//! correct alpha -2500
//! ```
//!
//! # What is proved
//!
//! In parentheses are the contracts, clauses and definitions that say it.
//!
//! - `average` accepts exactly lines of exchanges, at most 1,000, with exactly its output (`comes`,
//!   `answers`, `complete`).
//!
//! # What is only tested
//!
//! - Worked lines, and an output that two other programs gave.
//!
//! # What is neither proved nor tested
//!
//! - How fast it is.
#![tactic(auto)]

mod apart;
mod averaging;
mod best;
mod exchange;
mod finding;
pub mod laws;
mod message;
mod record;
mod run;
mod summary;
mod tally;

pub use run::average;
