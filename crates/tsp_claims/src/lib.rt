//! Lines that are claimed of a schedule's events: whether they fit it, the posts among them, and
//! the clocks after them.
//!
//! [`claims::Claims`] takes the events in their order, each with all lines that are claimed of it.
//! Lines fit where each has the event's number, node and tick and a port of that node, a boot begins
//! with its Boot, posts are numbered in turn, and what is taken is what the event brings. An event
//! whose lines don't fit changes nothing:
//!
//! ```text
//! let mut claims = Claims::new(alloc, header)?;
//! match claims.event(&event, &lines) {
//!     Ok(()) => {}                             // they were taken in
//!     Err(AuditFault::History(index)) => ..    // this line doesn't fit, or a line is lacking
//!     Err(AuditFault::OutOfMemory) => ..
//! }
//! let base = claims.base(node);                // the node's clock less its tick
//! ```
//!
//! The index counts from 0. It is the number of lines where all fit, but the event lacks something.
//!
//! A reader that gets one line at a time asks [`claims::Claims::fits`] of each, has it counted by
//! [`claims::Claims::count`], and hands an event's lines to [`claims::Claims::add`] once they are all there:
//! then none of them is asked again.
//!
//! # What is proved
//!
//! In parentheses are the contracts, clauses and definitions that say it.
//!
//! - An event and the lines that are claimed of it are taken in exactly if they fit their schedule.
//! - A fault names the first line that doesn't, or that something lacks, and changes nothing (`event` of
//!   `Claims`, by `TakesIn`).
//! - Lines that are known to fit are taken in without a second look (`taken`, `refused` of `Claims::add`).
//! - One line fits exactly where it is said to (`fits`), and an event lacks something exactly then (`lacks`
//!   of `Tally`).
//! - The claimed history, its posts and the base of each clock are as defined (`lines`, `post`, `posts`,
//!   `base`).
//!
//! # What is only tested
//!
//! - Rows of lines that fit and that don't.
#![tactic(auto)]

mod acting;
pub mod audit_fault;
pub mod booted;
pub mod claimed;
pub mod claims;
mod fitting;
pub mod held;
mod kinds;
mod taking_in;
pub mod tally;
