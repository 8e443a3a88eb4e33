//! The questions to a running daemon, as timedc(8) of 4.3BSD asks them: one datagram goes out, and the first
//! answer counts that comes within eight receives of at most a second each. A datagram that is no answer
//! uses up a receive.
//!
//! Each function of [`query`] is a question, over a link that is bound with the daemon as its only
//! peer. [`command::ask`] is a question as a command: it binds the link, asks once, and writes the
//! answer's line, which `specs/Lines.antt` defines. Times and ticks are microseconds. A ticker's *word* is a
//! number that differs from question to question; the request's number is made from it.
//!
//! ```
//! link.bind(local, &[daemon]);
//! match query::clockdiff(&mut link, &mut ticker) {
//!     // The daemon's clock is `diff` microseconds ahead of this machine's, give or take `err`.
//!     QueryEnd::Diff(diff, err) => show(diff, err),
//!     QueryEnd::NoAnswer => retry(),
//!     other => fail(other),
//! }
//! ```
//!
//! # What is proved
//!
//! In parentheses are the contracts, clauses and definitions that say it.
//!
//! - A query tries to send exactly its one datagram, takes the first answer among eight receives, each of
//!   which waits a second, reads its ticks and its wall clock if the definition says, and ends with the first
//!   call that fails (`asks`).
//! - No sum leaves its type.
//! - A question as a command binds `0.0.0.0:0` with the daemon's address as its one peer, is asked once the
//!   link is bound, and exactly the line of what came of it is written (`asks` of `ask`, by `AsksAs`).
//! - Each fault has its cause (`link`, `write`).
//!
//! # What is only tested
//!
//! - A query of each kind, failing calls, late and foreign answers.
//! - A line of each kind, failing calls.
//! - That a question's trip begins before its send.
#![tactic(auto)]

pub mod ask;
pub mod command;
pub mod exit;
mod line;
pub mod query;
pub mod question;
