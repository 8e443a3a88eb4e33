//! What is promised of every history of a network of nodes, and why it is true. Nothing here runs:
//! each function's contract is a theorem.
//!
//! The nodes run the Time Synchronization Protocol of 4.3BSD's timed (4.4BSD System Manager's
//! Manual, chapter 12, 'The Berkeley UNIX Time Synchronization Protocol'; message kinds as in its
//! `protocols/timed.h`), as `docs/PROTOCOL.md` has it. Names in capitals, such as `QUIET`, are the
//! protocol's numbers, in `tsp_base::constants`.
//!
//! - A *history* is a list of lines, the newest first. A *line* is a deed, with its node, the port
//!   on which it is done, its true time and its tick. A *deed* is an act of `tsp_base::act`, such
//!   as Post or Correct, or the mark with which a step begins.
//! - *True time* is counted in microseconds. A *tick* is a node's own count of microseconds, which
//!   gains or loses at most `drift` parts in a million, and `drift` is at most 1,000.
//! - A *step* is a boot, a look at the timers, or a datagram that reaches a node, with the acts
//!   that follow from it. A *life* of a node lasts from a boot to its next boot; its *word* is a
//!   number that it is handed at the boot.
//! - A *place* of a history is a line together with the lines before it. What a port *has seen* is
//!   its node's part of that.
//! - A node's *clock* is its target: the wall clock at the boot, the ticks since, and the amounts
//!   of all Corrects since, in microseconds. What it *shows* slews to the target, one microsecond
//!   for each 200 ticks, or is stepped to it. A node is *left alone* as long as it neither boots
//!   nor corrects its clock.
//! - A *send* is the first post of a numbered message, which begins it, and its repeats. A
//!   *correction* is the send of an ADJTIME or a SETTIME, or the Correct that takes one. Its number
//!   is the *ticket* of the node that is to take it, from 0 to 32,767; other sends have *own
//!   numbers* of the port, from 32,768 on.
//! - A master measures its slaves in a *round*, and ends it with a Close. A *Sample* is one
//!   measurement: its *reading* is the post of the reply that it rests on, and its error is half
//!   the round trip. An *estimate* is the diff of a peer's best Sample, the one with the shortest
//!   round trip. 'Errors and drift' are those errors and what the clocks may have drifted since the
//!   readings.
//!
//! Read `specs/` in this order: `Setting` (the clocks and networks around the nodes), `DeedFits`
//! and `StepFacts` (what each deed owes to its node's past), `Fits` (a history in which each deed
//! has done what it owes), `Premises` (what a promise may ask besides, such as that no datagram is
//! forged), then the promises, one a file, which `Safe` puts together, and `Dated` and `Looped`.
//!
//! [`fit`] says that a node which runs by the rules of `tsp_rules` does what each deed owes.
//! [`safe`], [`date`] and [`loops`] say that a history in which that is so keeps the promises,
//! whichever nodes there are and however many. [`alone`] says that a gateway, a node with several
//! ports, runs as a node does if it has one port. Small histories show that each promise can be
//! kept with all of its premises, and that nearly each can be broken.
//!
//! # What is proved
//!
//! In parentheses are the contracts, clauses and definitions that say it.
//!
//! - A port that runs by the whole table does nothing that its past doesn't allow (`rules_fit`), nor does any
//!   port of a node with several (`nodes_fit`).
//! - What it posts has its parts in their ranges, if what it took has (`answers_are_sound`).
//! - By the rules over several ports, a node with one port answers in each step what the rules of a node's
//!   only port give (`answers_alone`), boots alike (`boots_alone`), and so runs as that port does, from
//!   nothing on and through any steps (`runs_alone`).
//! - A history that fits keeps every promise (`safe`, and a theorem for each).
//! - The promises aren't empty, and nearly none is always true (`ordinary_use`, `rivals_meet`,
//!   `dates_use`, `loops_use`, `promises_can_be_broken`, `dates_can_be_broken`, `loops_can_be_broken`).
//! - No clock needs to be constant: a counter may be any that keeps the drift, as one of a constant rate does
//!   (`ticks_keep_width`), and each life of a node may have another wall clock (`wander_use`).
//! - In a history that fits a master alone sets the date, and what is acknowledged was set (`dated`), LOOPs
//!   come along chains of at most eleven posts, and a master gives up its lead for a LOOP only if that is its
//!   own node's (`looped`).
#![tactic(auto)]

pub mod alone;
pub mod date;
pub mod fit;
pub mod looks;
pub mod loops;
pub mod safe;
