//! The page from which programs read the network's time: its two halves as values, their octets, and what a reader reckons
//! from them.
//!
//! The page has 4,096 octets, little-endian. [`layout`] says where each part stands. The daemon writes its half, a
//! [`daemon_half::DaemonHalf`], and its supervisor the look's half, a [`look_half::LookHalf`]. A half begins with its
//! sequence: whoever writes it makes that odd, writes the fields, and makes it even again, the next number. A reader
//! copies both halves with [`daemon_half::DaemonHalf::of`] and [`look_half::LookHalf::of`], reads the clock meanwhile, and
//! takes the copy if both sequences were even and stayed as they were. Then [`reading::read`] tells the status, the shown
//! value, and the interval in which the master's clock lies.
//!
//! Ticks are microseconds of the daemon's counter, times microseconds since 1970, and a reader's moments nanoseconds of
//! the clock by which the daemon counts.
//!
//! # What is proved
//!
//! In parentheses are the contracts, clauses and definitions that say it.
//!
//! - What is written of a half is read back (`octets_are_read_back`).
//! - A half that has a node's clock gives its target, and its shown value or the half's least, if that is greater, until
//!   the clock is corrected (`halves_tell_of_pasts`).
//! - Of two reads, one after the other, the later one shows no less, within a life but at a step (`reads_dont_fall`).
//! - Tick, target, shown value, width, status and interval by their definitions (`read`, `status_at`, `interval_at`); no
//!   sum leaves 64 bits.
//!
//! That the master's clock lies in the interval is a law of `tsp_page_laws`.
//!
//! # What is only tested
//!
//! - Rows of pages and moments.
//!
//! Neither proved nor tested here: that a reader sees the octets in the order in which they were written, and that the
//! kernel's clock is the one that the daemon counts by.
#![tactic(auto)]

pub mod daemon_half;
mod formula;
pub mod laws;
pub mod layout;
pub mod look_half;
mod numbers;
pub mod rank;
pub mod reading;
pub mod spread;
