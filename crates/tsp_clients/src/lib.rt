//! What a port answers to clients, such as timedc, whoever asks:
//!
//! | Message | Call | Answer |
//! |---|---|---|
//! | MSITE | [`naming::name_master`] | an ACK with the name of the master that the port knows |
//! | MSITEREQ | [`naming::say_master`] | an ACK where the port is master, else nothing |
//! | TRACEON, TRACEOFF | [`tracing::turn_trace`] | an ACK; the node's trace is turned on or off |
//! | TEST | [`candidature::take_test`] | an ACK after the quiet time; the port stands for election where it may |
//!
//! The caller has put the Took of the message before, and doesn't call for messages that seem to come
//! from the port itself. Only a TEST may change the role.
//!
//! # What is proved
//!
//! In parentheses are the contracts, clauses and definitions that say it.
//!
//! - The answers to a question about the master, a TRACEON, a TRACEOFF and a TEST are exactly their rows, and
//!   the node's flag says whether its trace is on (`row` of `name_master`, `say_master`, `turn_trace`,
//!   `take_test`).
//!
//! # What is only tested
//!
//! - Each question, in roles that answer it otherwise.
#![tactic(auto)]

pub mod candidature;
pub mod naming;
pub mod tracing;
