//! The tests, by what they try.
mod failing_daemons;
mod failing_replays;
mod handlers;
mod icmp;
mod order;
mod pages;
mod queries;
mod questions;
mod records;
mod replays;
