//! What a master has measured of its peers and knows of them: exchanges of stamps, the samples of their
//! clocks that these give, the rounds of requests, and the table of the slaves.
//!
//! [`Exchanges`] are for any node: a caller calls [`Exchanges::start`] for each request that it sends and
//! [`Exchanges::reply`] for each reply that comes, which gives a [`Sample`] where it answers an open request.
//! `best` is a peer's sample with the shortest round trip since the last `clear`, which begins a new round:
//!
//! ```
//! let peer = PeerId(4);
//! let mut exchanges = Exchanges::new(alloc, &[peer, PeerId(9)])?;
//! // A request with word 7 and counter 0 goes out when the own clock reads 1,000,000.
//! exchanges.start(peer, 7, 0, 1_000_000);
//! // Its reply has ticket 5 and reading 1,000,500, and comes when the own clock reads 1,000,801.
//! exchanges.reply(peer, 7, 0, 5, 1_000_500, 1_000_801);
//! let best = exchanges.best(peer).unwrap();
//! assert_eq!((best.diff, best.err), (100, 401));
//! exchanges.clear();
//! ```
//!
//! [`Rounds`] are a master's exchanges: they number the requests, and count how often the going round has
//! probed. [`Slaves`] has an [`Entry`] for each peer: whether it is a slave, whether the round measures it, and
//! its last correction. Neither posts anything nor knows the protocol's rows; that is `tsp_master`'s.
//!
//! # What is proved
//!
//! In parentheses are the contracts, clauses and definitions that say it.
//!
//! - The sample of each reply and the best sample (`replies`, `first`).
//! - No two open requests of a master to one peer have one counter (`apart` of `Rounds::reply`), and what it
//!   learns of one peer changes that entry of its table alone (`entries` of `Slaves::change` and `leave`).
//!
//! # What is only tested
//!
//! - Rows of samples.
#![tactic(auto)]

mod entry;
mod exchange;
mod exchanges;
mod peer_exchanges;
mod rounds;
mod sample;
mod slaves;

pub use entry::{Change, Entry};
pub use exchange::Exchange;
pub use exchanges::Exchanges;
pub use rounds::{PROBES, Rounds};
pub use sample::{Reply, Sample, TimedSample};
pub use slaves::Slaves;
