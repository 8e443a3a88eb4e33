//! A board in memory.
ghost use Rattle.std.specs.Prelude.{◌≡◌, ◌≢◌, ◌↔◌, ◌⊎◌, ◌≤◌, ◌<◌, List, [], Option, Some, IfOk, drop, map, vec_len};
ghost use Rattle.std.specs.Option.{option_map};
ghost use Rattle.tsp_io.specs.Boards.{Mark, mark_of};
ghost use Rattle.tsp_io.specs.Counts.{Rose};
ghost use Rattle.tsp_io.specs.FailingCalls.{CountsCall, FailsNext};
ghost use Rattle.tsp_io.specs.Links.{NotesReceive};

use crate::board::{Board, Marked};
use crate::failing::Failing;
use std::alloc::{AllocError, Global};
use std::marker::Model;

/// A write on a board.
#[derive(Drop)]
pub struct MarkedOctets {
    /// Its place, counted from 0.
    pub at: u64,
    /// The octets.
    pub octets: Vec<u8>,
}

/// The writes on a board, in their order; None if there was no memory to note one of them.
#[derive(Drop)]
struct NotedMarks {
    alloc: Global,
    marks: Option<Vec<MarkedOctets>>,
}

impl Model for NotedMarks {
    ghost Value = { Option (List Mark) };

    ghost view = { λ n. option_map (λ marks. map mark_of marks.items) n.marks };
}

impl NotedMarks {
    /// Nothing was written.
    fn new(alloc: Global) -> NotedMarks
        ensures { result ≡ Some [] }
    {
        NotedMarks {
            alloc,
            marks: Some(Vec::new(alloc)),
        }
    }

    /// Adds a write.
    fn note(&mut self, at: u64, octets: &[u8])
        ensures { NotesReceive self.old self.new (at, octets.now) }
    {
        let Ok(octets) = Vec::from_slice(self.alloc, octets) else {
            self.marks = None;
            return;
        };
        if let Some(marks) = &mut self.marks {
            if marks.push(MarkedOctets { at, octets }).is_err() {
                self.marks = None;
            }
        }
    }

    /// The writes so far.
    fn all(&self) -> Option<&[MarkedOctets]>
        ensures { option_map (λ marks. map mark_of marks.now) result ≡ self.now }
    {
        match &self.marks {
            Some(marks) => Some(marks.as_slice()),
            None => None,
        }
    }
}

/// The writes on a board, and the numbers of those that fail; and what its reads will give.
#[derive(Drop)]
pub struct MemoryBoard {
    marks: NotedMarks,
    failing: Failing,
    faults: u64,
    views: Vec<MarkedOctets>,
    seen: usize,
    ghost within: { seen ≤ vec_len views },
}

impl MemoryBoard {
    /// A board on which nothing was written, and that gives nothing to read. The writes whose numbers are listed fail, and all after the
    /// first of them; they are counted from 0. Fails only if out of memory.
    pub fn new(alloc: Global, failing: &[u32]) -> Result<MemoryBoard, AllocError>
        ensures begins { IfOk result (λ b. (b.marks ≡ Some []) × (b.failing.calls.items ≡ failing.now)
            × (b.failing.next ≡ 0) × (b.faults ≡ 0)) }
        ensures views { IfOk result (λ b. map mark_of (drop b.seen b.views.items) ≡ []) }
    {
        Ok(MemoryBoard {
            marks: NotedMarks::new(alloc),
            failing: Failing::new(alloc, failing)?,
            faults: 0,
            views: Vec::new(alloc),
            seen: 0,
        })
    }

    /// The same board, of which the next reads give these octets, each from its place.
    pub fn showing(self, views: Vec<MarkedOctets>) -> MemoryBoard
        ensures views { map mark_of (drop result.seen result.views.items) ≡ map mark_of views.items }
        ensures rest { (result.marks ≡ self.marks) × (result.failing ≡ self.failing)
            × (result.faults ≡ self.faults) }
    {
        MemoryBoard {
            marks: self.marks,
            failing: self.failing,
            faults: self.faults,
            views,
            seen: 0,
        }
    }

    /// The writes so far, in their order, with those that failed; None if there was no memory to note
    /// one of them.
    pub fn marks(&self) -> Option<&[MarkedOctets]>
        ensures { option_map (λ marks. map mark_of marks.now) result ≡ self.now.marks }
    {
        self.marks.all()
    }
}

impl Board for MemoryBoard {
    ghost writes = { λ s. s.marks };

    ghost views = { λ s. Some (map mark_of (drop s.seen s.views.items)) };

    ghost faults = { λ s. s.faults };

    fn write(&mut self, at: u64, octets: &[u8]) -> Marked
        ensures writes { NotesReceive self.old.marks self.new.marks (at, octets.now) }
        ensures later { self.old.faults ≤ self.new.faults }
        ensures cause { result ≡ Marked.Failed → Rose self.old.faults self.new.faults }
        ensures still { result ≢ Marked.Failed → self.new.faults ≡ self.old.faults }
        ensures ended { 0 < self.old.faults → result ≡ Marked.Failed }
        ensures fails { (result ≡ Marked.Failed)
            ↔ (0 < self.old.faults ⊎ FailsNext self.old.failing) }
        ensures counted { CountsCall self.old.failing self.new.failing }
        ensures views { (self.new.views ≡ self.old.views) × (self.new.seen ≡ self.old.seen) }
    {
        self.marks.note(at, octets);
        let fails = self.failing.fails();
        if fails || self.faults > 0 {
            self.faults = self.faults.saturating_add(1);
            return Marked::Failed;
        }
        Marked::Written
    }

    fn read(&mut self, at: u64, buf: &mut [u8]) -> bool {
        if self.seen == self.views.len() {
            return false;
        }
        let view = &self.views[self.seen];
        self.seen += 1;
        if view.at != at || view.octets.len() != buf.len() {
            return false;
        }
        buf.copy_from_slice(view.octets.as_slice());
        true
    }
}
