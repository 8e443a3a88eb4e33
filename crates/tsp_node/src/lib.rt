//! A node with one port: its clock and its state. Inputs go in, acts come out; there is no socket and no
//! clock of a machine here.
//!
//! In this order:
//!
//! 1. Make a [`Config`]: the node's name, its own number, all peers in ascending order.
//! 2. [`boot`](Node::boot) it at a tick and a wall clock, with a word that no earlier boot had.
//! 3. Before each step reserve [`room`](Node::room) on the desk.
//! 4. [`step`](Node::step) it with the octets that came, or with `Input::Turn` once the tick is
//!    [`due`](Node::due). Ticks must never fall.
//! 5. Send each `Act::Post` of the desk.
//!
//! ```
//! let config = Config::new(alloc, Name::new(b"alpha"), PeerId(0), &[PeerId(0), PeerId(1)], true, false)?;
//! let mut desk = Pad::new(alloc);
//! desk.reserve(3)?; // a boot puts 3 acts
//! let mut node = Node::boot(alloc, &config, 0, 1_000_000, 17, &mut desk)?;
//! assert_eq!(node.due(), 80_000_000); // the end of the quiet time
//! desk.clear();
//! desk.reserve(node.room())?;
//! node.step(80_000_000, &Input::Turn, &mut desk);
//! ```
//!
//! A node with several ports is `Gateway` of `tsp_gateway`. Both have a [`Part`] for each port: all of its
//! state but the clock. What a `Part` takes and each alarm that it handles come with terms: whether the port
//! may correct its node's clock and set its date.
//!
//! A datagram's way: `Part::take` puts Took; `handle` ignores what seems to come from the port itself; `hear`
//! sends a message by its kind to those who answer it: clients' questions, dates, open sends, or the port's role,
//! for which `hear_peer` calls the role's crate (`tsp_slave`, `tsp_candidate`, `tsp_master`).
//!
//! # What is proved
//!
//! In parentheses are the contracts, clauses and definitions that say it.
//!
//! - A booted node represents the past that is its boot alone, and else says why it doesn't boot (`row`,
//!   `err` of `Node::boot`).
//! - A step puts exactly the acts of the table, at most `room()`, and the node then represents the longer
//!   past (`row`, `room` of `Node::step`, `turn`, `take`).
//! - `role`, `shown`, `due` and `tracing` are what its past says (`past`).
//!
//! # What is only tested
//!
//! - A node alone over a schedule: boot, turns, messages, `due`, `role` and `shown` (`alone` of
//!   `tsp_role_tests`).
#![tactic(auto)]

mod alarms;
mod answering;
mod audience;
mod config;
mod fault;
mod hearing;
mod node;
mod part;
mod readings;
mod reply;
mod ringing;
mod roles;
mod sends;
mod stepping;
mod taking;
mod terms;

pub use config::{Config, is_port};
pub use fault::BootFault;
pub use node::Node;
pub use part::Part;
