//! Tests of a port's roles, of what it answers to clients, and of what all roles use: the clock
//! and the station.
//!
//! The tests are in a crate of their own, so that each crate that they try is proved once. Most are a
//! table of steps with their acts as texts of a trace, and one function for each kind of steps
//! goes through its tables.
#![tactic(auto)]

#[cfg(test)]
mod tests;
