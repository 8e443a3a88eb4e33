//! The octets of the protocol's datagrams: a reader and a writer.
//!
//! Received octets are read by [`decode`], or by [`read`] where a fault is itself an input of a node. A
//! datagram to send is written by [`encode`], always in the same octets, and reading these gives the
//! same datagram. [`read_stamp`] and [`encode_stamp`] read and write a stamp in no more room than it takes; what is no
//! stamp is then read by [`read_any`].
//! Octets that aren't a valid datagram get the first fault that they have. No call allocates memory:
//!
//! ```
//! let name = Name::new(b"alpha");
//! let message = Message::new(Kind::MasterReq, 7, Body::Nothing, name);
//! let octets = encode(&Datagram::Message(message));
//! assert_eq!(octets.len(), 76);
//! assert!(matches!(decode(octets.as_slice()), Ok(Datagram::Message(_))));
//! assert!(matches!(decode(b""), Err(DecodeFault::Short)));
//! ```
//!
//! # What is proved
//!
//! In parentheses are the contracts, clauses and definitions that say it.
//!
//! - `decode` answers a datagram exactly if the octets spell it, and else their first fault (`spelled`,
//!   `faulty`).
//! - `read_stamp` answers a stamp exactly if `read` takes one.
//! - `encode` gives the one written spelling, which reads back (`octets`, `read_back`).
//! - Laws of the spelling (`laws.rt`).
//!
//! # What is only tested
//!
//! - Rows of octets for every type.
#![tactic(auto)]

mod decoding;
mod encoding;
mod fields;
pub mod laws;
mod layout;

pub use decoding::{decode, read, read_any, read_back, read_stamp};
pub use encoding::{encode, encode_stamp};
