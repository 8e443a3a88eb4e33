//! What all roles of a port share: its [`station::Station`].
//!
//! A station knows who its node is on the port ([`me::Me`]), its role, its peers, whom it has backed,
//! its alarms and its open numbered sends. Each call puts its acts on a desk and makes the changes that
//! go with them. The clause `row` says which acts these are, for every past that the station stands
//! for.
//!
//! A step uses it in this order, and reserves the desk's room before:
//!
//! ```
//! // 1. The due sends, peer by peer, before anything else.
//! let mut after = None;
//! while let Some(due) = station.repeat_next(after, tick, port, desk) {
//!     after = Some(due.peer());
//! }
//! // 2. The due alarms: each is handled in time or too late.
//! if station.is_due(Alarm::Elect, tick) && station.is_in_time(Alarm::Elect, tick) {
//!     station.ring(Alarm::Elect, port, desk);
//!     station.arm_elect(tick, port, desk);
//! }
//! // 3. What was taken: answers end sends (`ends`), sends begin (`begins`), and the rest changes
//! //    (`changes`) or is only posted (`posts`).
//! station.acknowledge(from, number, port, desk);
//! ```
//!
//! # What is proved
//!
//! In parentheses are the contracts, clauses and definitions that say it.
//!
//! - Each act that changes a port puts its row, and the state then represents the longer past (`row`, by
//!   `Performs`): roles, alarms, backings, and numbered sends that begin, end, are repeated or given up
//!   (`begin`, `begin_timed`, `begin_correction`, `acknowledge`, `answered`, `dated`, `repeat_next`).
//!
//! # What is only tested
//!
//! - One run of the acts, two of sends.
#![tactic(auto)]

pub mod begins;
pub mod changes;
pub mod ends;
pub mod me;
pub mod peers;
pub mod posts;
pub mod repeats;
pub mod station;
