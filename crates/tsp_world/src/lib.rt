//! All nodes of a schedule, on all their networks, and all datagrams that they posted. Events go in, the
//! lines of the trace come out.
//!
//! Make a [`world::World`] with a header whose `whole` is true, and give it each event in the order of
//! time. After each, `acts` are the lines that the event adds to the trace. A refused event changes
//! nothing, and its fault says why.
//!
//! ```
//! let mut header = Header::new(alloc, 0, false);
//! header.push(NodeLine { name: Name::new(b"a"), rate: 0, wall: 1000, may: true })?;
//! let mut world = World::new(alloc, header)?;
//! world.event(&Event::Boot { at: 0, node: 0, word: 5 })?;
//! assert_eq!(world.acts().len(), 3); // boot, become starting, arm quiet 80000000
//! let fault = world.event(&Event::Turn { at: 0, node: 1 });
//! assert!(matches!(fault, Err(EventFault::NoNode(1, 1))));
//! ```
//!
//! What needs no node is in `tsp_networks`: who is on which network, the posted datagrams, and the lines of a
//! step's acts.
//!
//! # What is proved
//!
//! In parentheses are the contracts, clauses and definitions that say it.
//!
//! - An event is refused for its first cause and else happens as defined, and a refusal changes nothing
//!   (`fault`, `stands`, `kept` of `World::event`).
//! - The history keeps the promises, and the premises if the text does (`promises`, `premises`).
//!
//! # What is only tested
//!
//! - Runs of two nodes, and of nodes on two networks.
#![tactic(auto)]

mod effects;
mod events;
mod refusing;
mod setup;
mod step;
pub mod world;
