//! Tests of the texts, of the treatment of lines, and of the words of the command line.
//!
//! The tests are in a crate of their own, so that each crate that they try is proved once.
#![tactic(auto)]

#[cfg(test)]
mod tests;
