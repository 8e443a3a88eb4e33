//! The Timestamp message of ICMP (RFC 792), by which 4.3BSD's timed measured clocks: its octets, and how
//! far another clock is ahead by a request and its reply.
//!
//! Nothing is sent here, and no call allocates memory. A caller writes a request by [`icmp_encode`], reads
//! the reply by [`icmp_decode`], and computes the difference in milliseconds:
//!
//! ```
//! // The request was sent at 1000, its reply came at 1020, and the other clock read 1015 in between.
//! assert!(standard(1000) && standard(1015));
//! assert_eq!(trip(1000, 1020), 20);
//! assert_eq!(difference(1000, 1015, 1020), Some((5, 11)));
//! ```
//!
//! # What is proved
//!
//! In parentheses are the contracts, clauses and definitions that say it.
//!
//! - `icmp_decode` answers a message exactly if the octets are that message's, and else their first fault
//!   (`reads`, `spelled`, `faulty`).
//! - `icmp_encode` gives its octets (`octets`).
//! - `difference` is right if the asked clock, when the request came, showed less than half a day before or after the time
//!   at which that was sent (`dayside`).
//!
//! # What is only tested
//!
//! - Worked messages and differences.
//! - If tshark is there, 300 random messages beside its fields.
#![tactic(auto)]

mod checksum;
mod decoding;
mod encoding;
mod exchange;
mod timestamp;

pub use decoding::icmp_decode;
pub use encoding::icmp_encode;
pub use exchange::{difference, standard, trip};
pub use timestamp::{IcmpFault, Timestamp};
