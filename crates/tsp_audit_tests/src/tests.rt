//! The tests, by what they try, and what these share: `claiming`, `auditing` and `inputs`.
mod auditing;
mod claim_rows;
mod claiming;
mod inputs;
mod noted;
mod refusals;
mod rows;
mod verdicts;
