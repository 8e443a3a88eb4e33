//! The reading of a schedule, line by line. What happens at its events is up to the caller.
//!
//! A caller implements [`handler::EventHandler`]: `begin` gets the header once it is complete, and `event`
//! each event. Then it goes through the lines with a [`stage::Stage`], from `Untitled` on:
//!
//! ```
//! let mut stage: Stage<MyHandler> = Stage::Untitled;
//! for line in lines {
//!     // Each line is without its line feed, and has at most 1,024 octets.
//!     stage.advance(alloc, line)?; // `Bad` with the cause for which the line is refused, or `Limit`
//! }
//! if let Some(cause) = stage.lacks() {
//!     return Err(cause); // the schedule isn't at its end: `header` or `no-end`
//! }
//! ```
//!
//! `tsp_replay` hands the events to a world; `tsp_audit_command` only lists them.
//!
//! # What is proved
//!
//! In parentheses are the contracts, clauses and definitions that say it.
//!
//! - Which line may follow which in a schedule, how far each brings the reading, and for what cause one is
//!   refused, whatever its events are handed to (`next` of `Stage::advance`).
//!
//! # What is only tested
//!
//! - A schedule of one node, line by line.
//! - Long lines.
#![tactic(auto)]

mod faults;
pub mod handler;
pub mod run;
pub mod stage;
