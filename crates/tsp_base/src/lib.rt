//! The values of the protocol: names, messages, stamps, acts, the hold, the alarms, the desk, and the
//! schedule's header and events. Texts, sockets and the rules of roles are in the crates above.
//!
//! What the crates above use first:
//!
//! - A [`name::Name`], a [`message::Message`] and a [`stamp::Stamp`] are made by their `of`, `new`
//!   or `reply`, and can hold only what a datagram can carry. A [`datagram::Datagram`] is a message
//!   or a stamp.
//! - Whatever a node does is an [`act::Act`]. A step puts its acts on a [`desk::Desk`]: the caller
//!   calls `reserve` for the step's room before it, and finds the acts in their order after it.
//!   [`pad::Pad`] is a desk in memory.
//! - A [`header::Header`] is filled line by line, by `push` for each node and then `net` for each
//!   network; `whole` says whether all nodes have a network.
//!
//! A node's ticks are microseconds of its own counter, at most 2^61. True times of schedules are
//! microseconds, at most 10^15; wall clocks are microseconds since 1970.
//!
//! ```
//! let mut header = Header::new(alloc, 100, false);
//! header.push(NodeLine { name: Name::new(b"alpha"), rate: -40, wall: 1_000_000, may: true })?;
//! header.push(NodeLine { name: Name::new(b"beta"), rate: 25, wall: 0, may: false })?;
//! header.net(&[0, 1])?;
//! assert!(header.whole());
//!
//! let mut pad = Pad::new(alloc);
//! pad.reserve(1)?;
//! pad.put(Port(0), Act::Boot);
//! assert_eq!(pad.acts().len(), 1);
//! ```
//!
//! `specs/` has the language of all rules and promises: histories, and the facts of a node and of a
//! port that are read off them.
//!
//! # What is proved
//!
//! In parentheses are the contracts, clauses and definitions that say it.
//!
//! - Values and tables by their definitions.
//! - A header takes exactly the nodes and networks that fit (`push`, `net`), each constant has the value that
//!   is written here (`constants_have_these_values`).
//! - The hold (`may_back`, `may_stand`), the least deadline (`least_is_least`), ticks (`tick_at`, `width`).
//!
//! # What is only tested
//!
//! - Each value at its edges.
#![tactic(auto)]

pub mod act;
pub mod alarm;
pub mod alarms;
pub mod at;
pub mod constants;
pub mod datagram;
pub mod desk;
pub mod drift;
pub mod event;
pub mod header;
pub mod hold;
pub mod input;
pub mod kind;
pub mod members;
pub mod message;
pub mod micros;
pub mod name;
pub mod octets;
pub mod pad;
pub mod peers;
pub mod place;
pub mod plain;
pub mod role;
pub mod stamp;
pub mod trace;
