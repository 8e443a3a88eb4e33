//! How a master finds its rivals and sends them away.
//!
//! A [`resolve::Resolve`] belongs to a port and is made with its peers. In this order:
//!
//! 1. `start`, when the master hears that there may be another one: it posts a RESOLVE to each other
//!    peer and arms the Resolve alarm.
//! 2. `rival`, for each MASTERACK that answers it.
//! 3. `ring`, at the alarm five seconds later: each rival gets a QUIT.
//! 4. `clear`, whenever the role changes.
//!
//! # What is proved
//!
//! In parentheses are the contracts, clauses and definitions that say it.
//!
//! - A master that looks for rivals, is answered by one, or whose time for answers is over puts exactly its
//!   rows, and each marked peer is a rival (`row` of `Resolve::start`, `rival`, `ring`).
//! - What boots or changes the role forgets them (`stands` of `new`, `clear`).
//!
//! # What is only tested
//!
//! - A resolution that finds a rival, and one after the rivals are forgotten.
#![tactic(auto)]

pub mod marks;
pub mod resolve;
