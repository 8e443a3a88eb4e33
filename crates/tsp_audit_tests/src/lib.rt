//! Tests of the audit: of the facts of a history, of claims, of verdicts event by event, and of
//! whole inputs.
//!
//! The tests are in a crate of their own, so that each crate that they try is proved once.
#![tactic(auto)]

#[cfg(test)]
mod tests;
