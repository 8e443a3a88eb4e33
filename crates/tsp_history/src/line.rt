//! A line of a history, with a note of what is known after it.

use crate::held_act::HeldAct;
use crate::notes::Note;
use tsp_base::place::Port;

/// Why a step happens.
#[derive(Clone, Copy, PartialEq, Eq, Debug)]
pub enum Why {
    /// The node boots with this word, at this wall clock in microseconds.
    Booted(u64, i64),
    /// Its timers are looked at.
    Turned,
    /// The datagram with this number, from 0, reaches it.
    Came(u64),
    /// It is handed octets that no node posted.
    Handed,
}

/// A line of a history: the mark of a step, or an act.
#[derive(Drop)]
pub struct HistoryLine {
    /// The true time, in microseconds.
    pub at: u64,
    /// The node, by its number from 0.
    pub node: u32,
    /// Why its step happens.
    pub why: Why,
    /// Its tick: microseconds by its own counter.
    pub tick: u64,
    /// The port on which the act is done; 0 at a mark.
    pub port: Port,
    /// The act; none at the mark where a step begins.
    pub act: HeldAct,
    /// What is known after it. `History::push` finds it, whatever is here: hand it `Note::new()`.
    pub note: Note,
}
