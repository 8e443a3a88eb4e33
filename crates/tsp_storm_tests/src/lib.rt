//! Tests of the `storm` command, by lines that other programs worked out.
//!
//! They are in a crate of their own, so that the crate under test is proved only once.
#![tactic(auto)]

#[cfg(test)]
mod sums;
