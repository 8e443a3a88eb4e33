//! A board over a file.
ghost use Rattle.std.specs.Prelude.{◌≡◌, ◌≢◌, ◌≤◌, ◌<◌, None};
ghost use Rattle.tsp_io.specs.Counts.{Rose};

use crate::board::{Board, Marked};
use std::os::unix::fs::FileExt;

/// A file as a board, with a count of its faults. What was written isn't told.
///
/// Each write is one of the system's, which fails if that takes not all of the octets; so is each read,
/// which fails if that gives fewer than are wanted.
#[derive(Drop)]
pub struct FileBoard<F> {
    file: F,
    faults: u64,
}

impl<F: FileExt> FileBoard<F> {
    /// A board over this file, which is open for writing, and not only for writing at its end.
    pub fn new(file: F) -> FileBoard<F>
        ensures { result ≡ record { file = file; faults = 0 } }
    {
        FileBoard { file, faults: 0 }
    }

    /// How many writes failed, with those that weren't tried because one had failed.
    pub fn faults(&self) -> u64
        ensures { result ≡ self.now.faults }
    {
        self.faults
    }

    /// Whether all of the octets were written at this place, in one write.
    fn put(&self, at: u64, octets: &[u8]) -> bool {
        match self.file.write_at(octets, at) {
            Ok(count) => count == octets.len(),
            Err(_) => false,
        }
    }
}

impl<F: FileExt> Board for FileBoard<F> {
    ghost writes = { λ _. None };

    ghost views = { λ _. None };

    ghost faults = { λ s. s.faults };

    fn write(&mut self, at: u64, octets: &[u8]) -> Marked
        ensures later { self.old.faults ≤ self.new.faults }
        ensures cause { result ≡ Marked.Failed → Rose self.old.faults self.new.faults }
        ensures still { result ≢ Marked.Failed → self.new.faults ≡ self.old.faults }
        ensures ended { 0 < self.old.faults → result ≡ Marked.Failed }
        ensures file { self.new.file ≡ self.old.file }
    {
        if self.faults == 0 && self.put(at, octets) {
            return Marked::Written;
        }
        self.faults = self.faults.saturating_add(1);
        Marked::Failed
    }

    fn read(&mut self, at: u64, buf: &mut [u8]) -> bool
        ensures same { self.new ≡ self.old }
    {
        match self.file.read_at(buf, at) {
            Ok(count) => count == buf.len(),
            Err(_) => false,
        }
    }
}
