//! The averaging: the largest set of clocks that agree, and its mean (as in the TEMPO method of timed).
//!
//! A caller adds to [`Values`] how far each clock is ahead of its own, and 0 for its own, asks for the
//! [`largest`] group of clocks within a span, and then for its [`mean`] and each clock's [`correction`].
//! All are microseconds:
//!
//! ```
//! let mut values = Values::new(alloc, 4)?;
//! for diff in [0, 400, 900, 70_000] {
//!     values.add(diff);
//! }
//! let group = largest(&mut values, 20_000);
//! assert_eq!(mean(&group), 433);
//! assert_eq!(correction(433, 900), -467);
//! ```
//!
//! It takes one sort; then each value is looked at twice at most.
//!
//! # What is proved
//!
//! In parentheses are the contracts, clauses and definitions that say it.
//!
//! - The largest group and that there is only one such answer (`largest`, `only`), that its mean follows a
//!   majority that agrees (`majority`), and at most twice as many looks as values once these are sorted
//!   (`looks`).
//!
//! # What is only tested
//!
//! - The same answers as a plain program that tries every value.
//!
//! # What is neither proved nor tested
//!
//! - How fast it is.
#![tactic(auto)]

mod group;
mod sweep;
mod values;
mod window;

pub use group::{Group, correction, mean};
pub use sweep::largest;
pub use values::Values;
