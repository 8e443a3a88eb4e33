//! The audit of a claimed history: whether it keeps the promises that every run keeps.
//!
//! An [`audit::Audit`] takes the events of a schedule in their order, each with the lines that some
//! program claims of it, and says after each one whether all parts hold so far: a part is one of the
//! promises that [`verdict::Verdict`] lists. Which premises the whole schedule keeps (honest, life and
//! words, of [`premises::Premises`]) must be known before: [`premised::keep_with`] finds that event by
//! event.
//!
//! ```text
//! let mut premises = all_kept();
//! for (i, event) in events.iter().enumerate() {
//!     // posts_before(i): the claimed posts of the events before this one
//!     premises = keep_with(premises, &events[..i], posts_before(i), event);
//! }
//!
//! let mut audit = Audit::new(alloc, header, premises)?;
//! for (event, lines) in claimed {
//!     match audit.event(&event, &lines)? {
//!         Verdict::Holds => {}
//!         Verdict::Fails(part) => ..           // the least part that fails, by its number
//!     }
//! }
//! let first = audit.failure();                 // which failed first, and at which event
//! ```
//!
//! After the first failure the verdict stays; lines are still checked for fit. An event whose lines
//! don't fit is refused, and the audit is what it was.
//!
//! Claims that were taken in before are judged by [`audit::Audit::of`], which doesn't ask again whether
//! their lines fit. It needs to know how many lines of the history stand up to the end of each event.
//!
//! [`laws`] has what an audit says of a run's own trace: that all parts hold.
//!
//! # What is proved
//!
//! In parentheses are the contracts, clauses and definitions that say it.
//!
//! - An event and what is claimed of it are taken in with the verdict on all claims so far, or they misfit,
//!   and then the audit represents what it did before (`Audit::event`).
//! - Each of the five parts is decided in both directions (`keeps_backing`, `keeps_leading`, `keeps_acting`,
//!   `keeps_measuring`), that clocks agree by a tracker which is carried on from event to event (`keeps` of
//!   `keeps_agreeing`).
//! - Which premises a schedule keeps is decided event by event (`keep_with`).
//! - A valid schedule's own trace, audited with it, claims the run's history (`runs_are_claimed`) and fits
//!   the schedule (`runs_fit_claims`), and the verdict on it is that all parts hold, and no other
//!   (`runs_hold`).
//!
//! # What is only tested
//!
//! - A failure that stays.
//! - Through the program a history for each clause of each part, but three that can't be the first to fail,
//!   that breaks it alone, one that keeps it, and each premise broken.
//!
//! # What is neither proved nor tested
//!
//! - How fast it is.
#![tactic(auto)]

mod agreement_tracker;
pub mod audit;
mod backing;
mod brought;
mod clock;
mod from_round;
mod judging;
pub mod laws;
mod leading;
mod looking;
mod measuring;
mod nearness;
mod once;
pub mod premised;
pub mod premises;
mod remembered;
mod resting;
mod round_correction;
mod shown;
pub mod small_event;
mod standing;
mod states;
pub mod verdict;
