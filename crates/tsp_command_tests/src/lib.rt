//! Tests of the commands over a source, a sink and a link in memory: inputs that were worked out by
//! hand, and calls that fail, each once.
//!
//! The tests are in a crate of their own, so that each crate that they try is proved once.
#![tactic(auto)]

#[cfg(test)]
mod tests;
