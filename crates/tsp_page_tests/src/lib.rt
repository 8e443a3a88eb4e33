//! Tests of the page: octets and readings that a plain Python program worked out from the page's description.
//!
//! The tests are in a crate of their own, so that the crate that they try is proved once.
#![tactic(auto)]

#[cfg(test)]
mod tests;
