//! The law behind the interval that programs read from the page. Nothing here runs: each function's contract is a theorem.
//!
//! A host k follows the master m. The daemon's half of its page says what k's clock is, and the look's half what a look at
//! m's clock gave: its supervisor read k's counter, asked m for a stamp, and read k's counter again. `specs/Looks` says
//! what each half then tells of a history, and `specs/Named` how a supervisor knows that a stamp was the master's.
//!
//! # What is proved
//!
//! In parentheses are the contracts, clauses and definitions that say it.
//!
//! - The master's clock lies in the interval that a reader gets, until it is corrected or boots, whatever the own clock was
//!   corrected by since the look, and however long ago that was (`looked` of `masters_lie_within`); a host that leads is
//!   the master itself (`leads`). Each node that has booted can have such a page (`pages_can_say_so`).
//! - What a page shows is what the clock shows, or more by a microsecond or so right after a correction, which the page before it
//!   showed already (`pages_show_clocks`).
//! - A stamp of a node that leads soon after it is of the life in which it leads (`leaders_stamps_are_of_their_life`). So a
//!   look counts only if whom it asked names itself as the master after its stamps: else it may be one that has started
//!   again, whose clock is another.
//!
//! The premises are that the counters keep within the drift, that the daemon's half says what its node's clock is, and that
//! the look's stamps are those of m: nobody forged this exchange, and no two lives of k have the same word.
//!
//! # What is only tested
//!
//! - Nothing.
#![tactic(auto)]

pub mod laws;
