//! The arguments of the command line as commands. Each command is written in one way.
//!
//! [`command::command_of`] reads the arguments after the program's name. Whoever calls it matches the
//! command, which has all its parts as values within their ranges: addresses, names and counts.
//!
//! ```
//! let words = ["clockdiff".to_string(), "127.0.0.1:525".to_string()];
//! assert!(matches!(command_of(alloc, &words)?, Some(Command::Ask(_, Query::ClockDiff))));
//! let words = ["clockdiff".to_string()];
//! assert!(command_of(alloc, &words)?.is_none());
//! ```
//!
//! # What is proved
//!
//! In parentheses are the contracts, clauses and definitions that say it.
//!
//! - Arguments are read exactly where they are a command's, as the one command whose arguments they are
//!   (`reads`, `one` of `command_of`).
//!
//! # What is only tested
//!
//! - Arguments of each command, and arguments of none.
#![tactic(auto)]

pub mod addrs;
pub mod command;
pub mod ports;
pub mod query;
pub mod serve;
pub mod storm;
