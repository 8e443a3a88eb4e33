//! Tests of a world of nodes, and a harness of nodes on networks.
//!
//! [`tests::lan::Lan`] has some nodes, lets them look at their timers twice a second, and carries their
//! datagrams. A test boots them, lets seconds pass, cuts a node off and joins it again, and asks who
//! is master and how far apart the clocks are.
//!
//! The tests are in a crate of their own, so that each crate that they try is proved once.
#![tactic(auto)]

#[cfg(test)]
mod tests;
