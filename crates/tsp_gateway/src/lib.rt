//! A node on 1 to 4 networks: its clock, and the state of each of its ports. Inputs go in, acts come out.
//!
//! There is no socket and no clock of a machine here: the caller brings ticks and octets, and does what
//! the acts say. In this order:
//!
//! 1. Make a [`GateConfig`] with the node's name, and give it each [`port`](GateConfig::port): the
//!    node's own number there, and all peers, ascending.
//! 2. [`boot`](Gateway::boot) it at a tick and a wall clock, with a word that no earlier boot had.
//! 3. Before each step reserve room on the desk: a step puts at most [`room`](Gateway::room) acts.
//! 4. [`step`](Gateway::step) it with the octets that came on a port, or with `Input::Turn` once
//!    the tick is [`due`](Gateway::due). Ticks must never fall.
//! 5. Send each `Act::Post` of the desk on its port, and write the acts to the trace where
//!    [`tracing`](Gateway::tracing) is true.
//!
//! ```
//! let mut config = GateConfig::new(alloc, Name::new(b"alpha"), true, false)?;
//! config.port(PeerId(0), &[PeerId(0), PeerId(1)])?;
//! let mut desk = Pad::new(alloc);
//! desk.reserve(3)?; // a boot puts at most 3 acts for each port
//! let mut gateway = Gateway::boot(alloc, &config, 0, 1_000_000, 17, &mut desk)?;
//! desk.clear();
//! desk.reserve(gateway.room())?;
//! gateway.step(80_000_000, &Input::Turn, &mut desk);
//! ```
//!
//! A step allocates no memory and can't fail. It puts exactly the acts that the rules give for its
//! past: the clause `row` of each call says so.
//!
//! All ports share one clock. It is corrected by the master of the lowest port that follows one; where no port
//! follows, by the rounds of the lowest port that is a master. A correction by one port ends the rounds of
//! the others, since what they have measured is no longer true. While a port has a round going, the next
//! rounds of the others wait.
//!
//! After each of its rounds a port that leads posts LOOPs, and a gateway passes those of other nodes on to its
//! other ports. Where one of a node's own comes back on a higher port, another gateway joins the same
//! networks, and that port stops leading.
//!
//! # What is proved
//!
//! In parentheses are the contracts, clauses and definitions that say it.
//!
//! - A booted node of several ports represents the past that is its boot alone, and else says why it doesn't
//!   boot (`row`, `err` of `Gateway::boot`).
//! - A step puts exactly the acts of the table over ports, at most `room()`, and the node then represents the
//!   longer past (`row`, `room` of `Gateway::step`, `turn`, `take`).
//! - `due`, `tracing` and `port_of` are what its past says (`past`), and so are the clock's target and what
//!   it shows, when it was corrected last, and who sets it (`past`, `standing`).
//!
//! # What is only tested
//!
//! - Through `replay`: the vectors of gateways and loops.
#![tactic(auto)]

mod booting;
mod config;
mod corrected;
mod fault;
mod forwarding;
mod gateway;
pub mod laws;
mod leading;
mod looping;
mod readings;
mod rounds;
mod standing;
mod stepping;
mod taking;
mod turning;

pub use config::GateConfig;
pub use fault::PortFault;
pub use gateway::Gateway;
pub use standing::Standing;
