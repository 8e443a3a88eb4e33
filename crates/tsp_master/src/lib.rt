//! What a port does that leads: it measures its slaves in rounds, and corrects them.
//!
//! A slave is a peer that has joined the master by a SLAVEUP. A round begins every `ROUND` ticks (four
//! minutes) and lasts `CLOSE` ticks (eight seconds): each slave is sent a stamp request at its start and at
//! each of three probes, a second apart. Of each slave's replies the one of least round trip counts. At its
//! close the largest group of clocks that agree within `SPAN` gives a mean, and each measured slave is
//! corrected towards it; one that never answered is a slave no more.
//!
//! [`master::Master`] is made with the port's peers and kept through all roles. What it has measured and knows
//! of them is in the `Rounds` and the `Slaves` of `tsp_measure`. While the port leads:
//!
//! - each message of a peer goes to `take`, an ACK to `acknowledge`;
//! - each stamp goes to `reply`;
//! - each alarm of a round (Probe, Close, Round) goes to `ring`;
//! - a peer to which a send was given up goes to `leave`;
//! - `clear` ends all with the role, `abandon` a round alone.
//!
//! A correction has a number, the ticket that the slave's clock had when it was told. To one peer the next
//! correction may begin once the last one was acknowledged, or `REUSE` ticks after its last post.
//!
//! Ticks are microseconds of the node's own counter, from 0 to 2^61; differences, means and clock values are
//! microseconds. Only `new` fails, and only if out of memory.
//!
//! # What is proved
//!
//! In parentheses are the contracts, clauses and definitions that say it.
//!
//! - A master that takes a message, a reply or an ACK, or whose alarm is due, puts exactly its rows (`row` of
//!   `Master::take`, `reply`, `acknowledge`, `ring`), and says whether it corrected the clock (`corrects`).
//! - The sample that a close rests on is of an exchange that began after the node's last correction
//!   (`recent`).
//! - The state represents the past still when a peer joins, leaves, is given up or is forgotten (`stands`).
#![tactic(auto)]

mod closing;
mod corrections;
mod gathering;
pub mod master;
mod replies;
mod ring;
mod take;
