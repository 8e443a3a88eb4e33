//! The numbered sends of a port: messages that are repeated until they are acknowledged. There is at most
//! one open send to each peer, and a tree finds the next deadline.
//!
//! [`Sends::begin`] opens a send, which the caller has posted. `least` is the tick at which the first
//! send is due; from then on `due` gives each due one, peer by peer: its message to post again, or the
//! news that it is given up. `ack` ends a send, and `clear` all of them.
//!
//! ```
//! let mut sends = Sends::new(alloc, &[PeerId(1), PeerId(2)])?;
//! sends.begin(PeerId(1), message, 0); // `message` has number 7
//! assert_eq!(sends.least(), Some(1_000_000));
//! assert!(matches!(sends.due(None, 1_000_000), Some(Due::Again(PeerId(1), _))));
//! assert!(sends.due(Some(PeerId(1)), 1_000_000).is_none());
//! assert!(sends.ack(PeerId(1), 7));
//! assert!(sends.least().is_none());
//! ```
//!
//! # What is proved
//!
//! In parentheses are the contracts, clauses and definitions that say it.
//!
//! - Which send is due, repeated or given up (`RepeatsNext`).
//! - How many nodes of the tree of deadlines a call reads (`looks`).
//!
//! # What is only tested
//!
//! - 200,000 peers and 4,000,000 rounds end in time.
#![tactic(auto)]

mod due;
mod sending;
mod sends;
mod slot;
mod slots;
mod store;
mod tree;

pub use due::Due;
pub use sends::Sends;
pub use tree::Tree;
