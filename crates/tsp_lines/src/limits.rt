//! The limits of inputs.

/// The greatest input of a command, in octets: 64 MiB.
pub const MOST_INPUT: u64 = 67_108_864;
