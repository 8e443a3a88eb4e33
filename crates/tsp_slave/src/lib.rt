//! What a slave does: a port that follows a master, or looks for one.
//!
//! A port has one role on one network: it is Starting in the quiet time after a boot, Loose while it follows
//! nobody, and Follow while it follows a master. Only a master corrects its clock:
//!
//! - Each message of a peer goes to [`take::slave_take`]. A correction is an ADJTIME, which moves the clock,
//!   or a SETTIME, which sets it. Its number must be the clock's ticket, so that each correction acts once; a
//!   repeat of the last one is only acknowledged again.
//! - Each alarm that is due goes to [`ring::slave_ring`]: the quiet time ends, a search for a master ends, or
//!   no master was heard for the election delay (five to ten minutes).
//! - [`last::Last`] is what a port remembers from a boot to the next: the last correction, by which a repeat
//!   is known, and the name of its master.
//! - [`follow`] and [`quit`] are also called in other roles: a candidate that hears a master follows it, and
//!   any port heeds a QUIT.
//!
//! Ticks are microseconds of the node's own counter, from 0 to 2^61; clock values and amounts are
//! microseconds. Calls put acts on the desk, for which the caller reserves the room. No call fails.
//!
//! # What is proved
//!
//! In parentheses are the contracts, clauses and definitions that say it.
//!
//! - Following, searching, being corrected, backing a candidate, reporting another master and taking a QUIT
//!   or an ACK put exactly their rows (`row` of `slave_take`, `slave_ring`, `follow`, `take_quit`).
//! - That a message corrected the clock is said exactly if it did (`corrects` of `slave_hear`).
//!
//! # What is only tested
//!
//! - A run of corrections, one of backings, one of a conflict and a QUIT.
#![tactic(auto)]

mod change;
mod conflict;
mod correction;
mod election;
pub mod follow;
pub mod last;
pub mod quit;
pub mod ring;
pub mod take;
