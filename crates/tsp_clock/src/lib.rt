//! The corrected clock of a node. It has a target, which corrections move at once, and a shown value, which
//! follows it. After a small correction it does so slowly and doesn't fall, as after 4.3BSD's adjtime.
//!
//! [`clock::Clock::boot`] makes it with the tick and the wall clock of a boot. `adjust` moves the target
//! by an amount, `set` sets it to a value. An amount of at most `MAXADJ` (20 s) is slewed in, a
//! microsecond for each 200 ticks; a larger one and a set value are shown at once. In a node,
//! `correct_by` and `correct_to` do the same and put the act, once `can_adjust` says that the target
//! would still be in its range.
//!
//! ```
//! let mut clock = Clock::boot(0, 1_000_000, word)?;
//! assert_eq!(clock.adjust(0, 400)?, false);
//! assert_eq!((clock.target(0), clock.shown(0)), (1_000_400, 1_000_000));
//! assert_eq!((clock.target(40_000), clock.shown(40_000)), (1_040_400, 1_040_200));
//! assert_eq!((clock.target(80_000), clock.shown(80_000)), (1_080_400, 1_080_400));
//! ```
//!
//! # What is proved
//!
//! In parentheses are the contracts, clauses and definitions that say it.
//!
//! - Target, shown value, ticket and refusals by their definitions (`ok`, `err`, `shown`), and that a
//!   correction puts its row's act (`row`).
//! - Between corrections the shown value never falls, and it meets the target once all is slewed
//!   (`shown_follows_target`).
//!
//! # What is only tested
//!
//! - Rows of corrections.
#![tactic(auto)]

pub mod clock;
pub mod corrections;
pub mod laws;
pub mod slew;
