//! Lines of a history as values, and the facts that are decided of them.
//!
//! A [`history::History`] takes lines one by one, the oldest first: the mark where a step begins,
//! and each act. Beside each line it keeps what is known of the line's node and port after it
//! ([`notes::Note`]), so that a question about the newest lines needs no walk over all lines.
//!
//! Make room first, since a push takes no memory:
//!
//! ```text
//! let mut history = History::new(alloc);
//! history.make_room(2)?;
//! history.push(mark);
//! history.push(act);
//!
//! let lines = history.lines();
//! let role = role_at(lines, node, port);
//! let clock = target_at(&lines[..1], node, tick); // before the act
//! ```
//!
//! The questions are functions over the lines up to the place that is asked about: pass
//! `&lines[..i]` for those before line i. Clocks are in [`clocks`] and [`counts`], roles and holds in
//! [`scans`], rounds in [`rounds`], what was posted and taken in [`posts`], and which send a message
//! is of in [`sends`].
//!
//! # What is proved
//!
//! In parentheses are the contracts, clauses and definitions that say it.
//!
//! - Each fact of noted lines is the definition's, of the history that they are: the role of a port, whether
//!   a backing keeps the hold, whether a correction is far enough from those of its life, a clock's target
//!   and how far it was moved (`moved` and `bounded` of `moved_at`, `target` and `small` of `target_at`),
//!   which line posts a datagram, whether a step has taken something, the send that began last and the one
//!   that is open, whether a round goes on, the exchange that is open (`asked` of `asked_at`), the round trip
//!   of a sample (`trip` of `trip_of`), the best sample of a round (`best_at`) and the last Close of a
//!   step.
//! - An act has one brief (`one_brief`).
//! - And a history takes memory only if room is made (`room` of `History::new`, `push` and `append`, `full`
//!   and `kept` of `make_room`).
//!
//! # What is only tested
//!
//! - Each on a few lines made by hand.
//!
//! # What is neither proved nor tested
//!
//! - How fast it is.
#![tactic(auto)]

pub mod brief;
mod change;
pub mod clocks;
pub mod counts;
pub mod held_act;
pub mod history;
pub mod laws;
pub mod line;
mod newest;
pub mod notes;
pub mod posts;
pub mod rounds;
pub mod scans;
pub mod sends;
mod ticks;
