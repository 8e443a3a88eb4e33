//! The lines of a history, each with what is known after it.
ghost use Rattle.std.specs.Prelude.{◌≡◌, ◌≤◌, ◌<◌, ◌+◌, ◌-◌, ◌^◌, [], ◌∷◌, length, vec_len};
ghost use Rattle.std.specs.Prelude.{OnOk, OnErr};
ghost use Rattle.tsp_history.specs.Histories.{line_of, history_of, noted_after};
ghost use Rattle.tsp_history.specs.Notes.{Told};

use crate::line::HistoryLine;
use crate::notes::note_behind;
use std::alloc::{AllocError, Global};
use std::marker::Model;

/// The lines of a history, the oldest first.
#[derive(Drop)]
pub struct History {
    lines: Vec<HistoryLine>,
}

impl Model for History {
    ghost use Rattle.std.specs.Prelude.{◌-◌, vec_len, vec_capacity};
    ghost use Rattle.tsp_history.specs.Growing.{HistoryValue};
    ghost use Rattle.tsp_history.specs.Notes.{Told};

    ghost Value = { HistoryValue };

    ghost view = { λ h. record {
      lines = h.lines.items;
      room = vec_capacity h.lines - vec_len h.lines;
    } };

    ghost invariant = { λ h. Told h.lines.items };
}

impl History {
    /// No line yet, and room for none. Takes no memory.
    pub fn new(alloc: Global) -> History
        ensures lines { result.lines ≡ [] }
        ensures room { result.room ≡ 0 }
    {
        History {
            lines: Vec::new(alloc),
        }
    }

    /// Makes room for this many lines more, which pushes need. Fails only if out of memory, and
    /// never where there is that room already; either way the lines are what they were, and there
    /// is no less room.
    pub fn make_room(&mut self, count: usize) -> Result<(), AllocError>
        ensures room { OnOk result (count ≤ self.new.room) }
        ensures full { OnErr result (self.old.room < count) }
        ensures kept { self.old.room ≤ self.new.room }
        ensures lines { self.new.lines ≡ self.old.lines }
    {
        self.lines.reserve(count)
    }

    /// Puts a line behind the others; its note is found here. There must be room for it, by
    /// `make_room`, and fewer than 2^31 lines before it, else the contract is broken: a push takes
    /// no memory.
    pub fn push(&mut self, line: HistoryLine)
        requires few { length self.old.lines < 2 ^ 31 }
        requires room { 1 ≤ self.old.room }
        ensures history { history_of self.new.lines ≡ line_of line ∷ history_of self.old.lines }
        ensures length { length self.new.lines ≡ length self.old.lines + 1 }
        ensures room { self.old.room ≡ self.new.room + 1 }
    {
        let note = note_behind(self.lines.as_slice(), &line);
        self.lines.push_reserved(HistoryLine {
            at: line.at,
            node: line.node,
            why: line.why,
            tick: line.tick,
            port: line.port,
            act: line.act,
            note,
        });
    }

    /// Puts these lines behind the others, the first of them first; their notes are found here.
    /// There must be room for them, by `make_room`, and at most 2^31 lines with them, else the
    /// contract is broken: this takes no memory.
    pub fn append(&mut self, lines: Vec<HistoryLine>)
        requires few { length self.old.lines + vec_len lines ≤ 2 ^ 31 }
        requires room { vec_len lines ≤ self.old.room }
        ensures history { history_of self.new.lines
            ≡ noted_after (history_of self.old.lines) lines.items }
        ensures length { length self.new.lines ≡ length self.old.lines + vec_len lines }
        ensures room { self.old.room ≡ self.new.room + vec_len lines }
    {
        for line in lines {
            self.push(line);
        }
    }

    /// The lines.
    pub fn lines(&self) -> &[HistoryLine]
        ensures lines { result.now ≡ self.now.lines }
        ensures told { Told result.now }
    {
        self.lines.as_slice()
    }

    /// How many lines there are.
    pub fn len(&self) -> usize
        ensures { result ≡ length self.now.lines }
    {
        self.lines.len()
    }
}
