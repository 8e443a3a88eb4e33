//! A board: octets at places, which other programs read at any time, and on which they write too.
ghost use Rattle.std.specs.Prelude.{◌≡◌, ◌≢◌, ℕ, ◌≤◌, ◌<◌, List, Option, length};
ghost use Rattle.tsp_io.specs.Boards.{Mark, TakesView};
ghost use Rattle.tsp_io.specs.Counts.{Rose};
ghost use Rattle.tsp_io.specs.Links.{NotesReceive};

/// What one write answers.
#[derive(Clone, Copy, PartialEq, Eq, Debug)]
pub enum Marked {
    /// The octets stand at their place.
    Written,
    /// The write failed. Maybe some of the octets stand at their place, and maybe none.
    Failed,
}

/// Octets at places, which other programs read, and on which they write at other places.
///
/// Once a write failed, each later one fails too, and changes nothing: so nothing is written that
/// relies on what isn't there.
pub trait Board {
    /// The writes so far, with those that failed; None if they aren't told.
    ghost writes: { Self → Option (List Mark) };

    /// What reads will still give, with their places; None if that isn't told.
    ghost views: { Self → Option (List Mark) };

    /// How often a write failed; it never falls, and stays at 2^64 - 1 once it is there.
    ghost faults: { Self → ℕ };

    /// Writes octets at a place, which is counted from 0.
    ///
    /// `Failed` comes only if the count of faults rose in this call; with any other answer the count is
    /// unchanged.
    fn write(&mut self, at: u64, octets: &[u8]) -> Marked
        ensures writes { NotesReceive (writes self.old) (writes self.new) (at, octets.now) }
        ensures later { faults self.old ≤ faults self.new }
        ensures cause { result ≡ Marked.Failed → Rose (faults self.old) (faults self.new) }
        ensures still { result ≢ Marked.Failed → faults self.new ≡ faults self.old }
        ensures ended { 0 < faults self.old → result ≡ Marked.Failed }
        ensures views { views self.new ≡ views self.old };

    /// Fills a buffer with the octets that stand at a place, which is counted from 0. False if it can't be
    /// filled; then anything may be in it.
    fn read(&mut self, at: u64, buf: &mut [u8]) -> bool
        ensures views { TakesView (views self.old) (views self.new) at (length buf.old) result
            buf.new }
        ensures same { (writes self.new ≡ writes self.old) × (faults self.new ≡ faults self.old) };
}
