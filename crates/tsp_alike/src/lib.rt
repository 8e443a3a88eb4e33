//! The rules don't depend on what a port's peers are called, nor on when its ticks begin. Nothing
//! here runs: each function's contract is a theorem.
//!
//! A node of a schedule knows its peers by the numbers of their nodes, and its ticks begin at true
//! time 0. A daemon is number 0 for itself, numbers its peers from 1 on over all of its ports, and
//! its ticks begin with its machine's counter. Both act by the same rules. Here two pasts of a node
//! are *alike* if one is the other with the peers of each port renamed and all ticks later by one
//! number, since the last boot. Whatever was before that boot may differ. A *renaming* tells peers
//! apart, and keeps the order in which a port's other peers stand.
//!
//! Read `specs/AlikeNodes.antt`, and before it `Renames` of `tsp_rules`, which says what a renaming
//! makes of an act. `tsp_network` uses this.
//!
//! # What is proved
//!
//! In parentheses are the contracts, clauses and definitions that say it.
//!
//! - If two pasts are alike, and the same comes, in the other names, then the acts are the same, in
//!   the other names and at the later ticks, they name only peers that the port knows, and the
//!   pasts after them are alike again (`answers_are_alike`, by `StepsAlike`).
//! - Two nodes that are set up alike, and boot with the same word and the same wall clock, begin
//!   alike, whatever either did before (`boots_are_alike`, by `BootsAlike`).
#![tactic(auto)]

pub mod laws;
