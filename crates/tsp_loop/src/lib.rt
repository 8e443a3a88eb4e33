//! What a gateway does with a LOOP: the message that finds out whether two networks are joined twice.
//!
//! The caller asks [`judge`] about each LOOP that came from a peer, and does what it answers. A node
//! sends LOOPs with its own name and the number of the port; others pass them on. One that comes back on
//! a higher port shows that another gateway joins the same networks:
//!
//! ```
//! match judge(&own, ports, port, &message) {
//!     LoopStep::PassOver => (),
//!     LoopStep::GiveUp => stop_leading_on(port),
//!     LoopStep::Forward(next) => post_to_peers_of_other_ports(port, next), // with one hop less
//! }
//! ```
//!
//! # What is proved
//!
//! In parentheses are the contracts, clauses and definitions that say it.
//!
//! - A node's step for a LOOP is the rule's (`judge`).
//!
//! # What is only tested
//!
//! - Rows for its own LOOP, another's, and the edges of hops and ports.
#![tactic(auto)]

mod step;

pub use step::{LoopStep, judge};
