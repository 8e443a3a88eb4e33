//! What a candidate does: a port that stands for election.
//!
//! In this order:
//!
//! 1. [`candidature::stand`] begins the election; the caller has checked that the port is Loose or follows, and may
//!    stand (`Hold::may_stand`).
//! 2. Each message of a peer goes to [`take::candidate_take`]. An ACCEPT counts; a REFUSE, a master or a
//!    QUIT ends the candidature.
//! 3. The Window alarm, five seconds later, goes to [`ring::candidate_ring`]: the port becomes master, or
//!    follows nobody again. Where elections are strict, a majority of the peers must have backed it.
//!
//! # What is proved
//!
//! In parentheses are the contracts, clauses and definitions that say it.
//!
//! - Standing for election, the answers to it and the end of its window put exactly their rows (`row` of
//!   `stand`, `candidate_take`, `candidate_ring`).
//!
//! # What is only tested
//!
//! - An election that is won, lost, and met too late, and a strict one with half and with more.
#![tactic(auto)]

mod answers;
pub mod candidature;
pub mod ring;
pub mod take;
