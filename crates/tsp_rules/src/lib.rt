//! The rules of the protocol: what a port does at each alarm and for each datagram. A rule is a row, a
//! definition that gives the acts for a tick and a past. The only code here is [`room::room_for`],
//! which says how much room a step takes; all other functions are theorems.
//!
//! Where to read in `specs/`:
//!
//! | File | What it has |
//! |---|---|
//! | `Guards` | what rows ask of a past: the role, the ticket, whether an alarm is due |
//! | `SlaveRows`, `CandidateRows`, `MasterRows` | a role's answer to each kind of message, and its alarms |
//! | `RoundRows`, `ResolveRows`, `DateRows` | a master's rounds and rivals, and the network's date |
//! | `SendRows`, `ClockRows`, `CommonRows` | numbered sends, corrections, and what several roles do |
//! | `Answers` | a step of a node with one port: due sends, due alarms, then the input |
//! | `NodeRows`, `GateRows` | the same over all ports of a node |
//!
//! [`worked`] has twelve small runs, event by event, with the acts that the rules give, and
//! [`strangers`] says that nothing is posted to a stranger unasked.
//!
//! # What is proved
//!
//! In parentheses are the contracts, clauses and definitions that say it.
//!
//! - The table of rows, over one port and over several, gives the acts of twelve worked scripts, which touch
//!   each of its rows for messages and alarms (the laws of `worked`, such as `ordinary_use`, `hears_masters`,
//!   `dates_once` and `joins_networks`).
//! - The room that a step is given on a port is computed as defined (`room_for`).
//! - A step posts to strangers only where it is given a stranger's datagram (`strangers_are_answered`).
#![tactic(auto)]

pub mod room;
pub mod strangers;
pub mod worked;
