//! A machine's tick counter, and the wall clock and the word that a node gets at its boot.
ghost use Rattle.std.specs.Prelude.{◌≡◌, ℕ, ℤ, ◌≤◌, ◌+◌, ◌^◌, min, length, List, Bool, IfSome, Option, Some};
ghost use Rattle.std.specs.Option.{option_and_then, option_map};
ghost use Rattle.tsp_io.specs.Boards.{Mark, TakesView};
ghost use Rattle.tsp_io.specs.Clocks.{TakesReading, IsWall};
ghost use Rattle.tsp_io.specs.Links.{NotesReceive};
ghost use Rattle.tsp_io.specs.Origins.{origin_then, retuned};
ghost use Rattle.tsp_io.specs.declared.origin.Origin.{Origin};

use crate::origin::Origin;

/// Clocks: a tick counter and a wall clock, both in microseconds. No call fails.
///
/// Other programs can count the same ticks, if they know from where (`origin`), and a ticker may have a
/// board for them, on which is written what its ticks mean, and from which is read what they write there.
/// The rate of the ticks can be changed, from a tick on (`retune`).
pub trait Ticker {
    /// The readings that `tick` still has to give; None if they aren't told.
    ghost readings: { Self → Option (List ℕ) };

    /// What `wall` answers; None if that isn't told.
    ghost wall_is: { Self → Option ℤ };

    /// What `word` answers; None if that isn't told.
    ghost word_is: { Self → Option ℕ };

    /// The readings that `tick` still had to give when the wall clock was last read: None if they
    /// aren't told, Some None if `wall` wasn't read yet.
    ghost left_at_wall: { Self → Option (Option (List ℕ)) };

    /// The last answer of `tick`; 0 before the first.
    ghost last: { Self → ℕ };

    /// What `origin` answers; None if that isn't told.
    ghost origin_is: { Self → Option (Option Origin) };

    /// How many microseconds after the last reading `moment` is; None if that isn't told.
    ghost delay_is: { Self → Option ℕ };

    /// Whether there is a board.
    ghost boarded: { Self → Bool };

    /// What was written on the board, write by write; None if that isn't told.
    ghost marks: { Self → Option (List Mark) };

    /// What reads of the board will still give, with their places; None if that isn't told.
    ghost views: { Self → Option (List Mark) };

    /// The tick counter, in microseconds. It never falls, and is at most 2^61.
    fn tick(&mut self) -> u64
        ensures low { last self.old ≤ result }
        ensures high { result ≤ 2 ^ 61 }
        ensures last { last self.new ≡ result }
        ensures takes { TakesReading (readings self.old) (readings self.new) (last self.old)
            result }
        ensures same { (wall_is self.new ≡ wall_is self.old)
            × (word_is self.new ≡ word_is self.old)
            × (left_at_wall self.new ≡ left_at_wall self.old) }
        ensures page { (origin_is self.new ≡ origin_is self.old)
            × (delay_is self.new ≡ delay_is self.old) × (boarded self.new ≡ boarded self.old)
            × (marks self.new ≡ marks self.old) × (views self.new ≡ views self.old) };

    /// The wall clock, in microseconds since 1970, from -2^62 to 2^62.
    fn wall(&mut self) -> i64
        ensures answers { IfSome (wall_is self.old) (λ wall. result ≡ wall) }
        ensures range { IsWall result }
        ensures reads { left_at_wall self.new ≡ option_map Some (readings self.old) }
        ensures same { (readings self.new ≡ readings self.old)
            × (wall_is self.new ≡ wall_is self.old) × (word_is self.new ≡ word_is self.old)
            × (last self.new ≡ last self.old) }
        ensures page { (origin_is self.new ≡ origin_is self.old)
            × (delay_is self.new ≡ delay_is self.old) × (boarded self.new ≡ boarded self.old)
            × (marks self.new ≡ marks self.old) × (views self.new ≡ views self.old) };

    /// A number that should differ at each boot: the word of a node's life.
    fn word(&mut self) -> u64
        ensures answers { IfSome (word_is self.old) (λ word. result ≡ word) }
        ensures same { (readings self.new ≡ readings self.old)
            × (wall_is self.new ≡ wall_is self.old) × (word_is self.new ≡ word_is self.old)
            × (left_at_wall self.new ≡ left_at_wall self.old)
            × (last self.new ≡ last self.old) }
        ensures page { (origin_is self.new ≡ origin_is self.old)
            × (delay_is self.new ≡ delay_is self.old) × (boarded self.new ≡ boarded self.old)
            × (marks self.new ≡ marks self.old) × (views self.new ≡ views self.old) };

    /// From where the ticks are counted; None if that isn't known, as before the first reading.
    fn origin(&self) -> Option<Origin>
        ensures answers { IfSome (origin_is self.now) (λ origin. result ≡ origin) };

    /// The tick counter now, at least its last reading and at most 2^61, without a reading that `tick`
    /// has to give.
    fn moment(&self) -> u64
        ensures low { last self.now ≤ result }
        ensures high { result ≤ 2 ^ 61 }
        ensures answers { IfSome (delay_is self.now)
            (λ delay. result ≡ min (last self.now + delay) (2 ^ 61)) };

    /// Whether there is a board.
    fn has_board(&self) -> bool
        ensures { result ≡ boarded self.now };

    /// Writes octets on the board, at a place counted from 0, as its `write` does; nothing if there is no
    /// board. If the write fails, that is the board's to count.
    fn mark(&mut self, at: u64, octets: &[u8])
        ensures marks { NotesReceive (marks self.old) (marks self.new) (at, octets.now) }
        ensures same { (readings self.new ≡ readings self.old)
            × (wall_is self.new ≡ wall_is self.old) × (word_is self.new ≡ word_is self.old)
            × (left_at_wall self.new ≡ left_at_wall self.old)
            × (last self.new ≡ last self.old) }
        ensures page { (origin_is self.new ≡ origin_is self.old)
            × (delay_is self.new ≡ delay_is self.old) × (boarded self.new ≡ boarded self.old)
            × (views self.new ≡ views self.old) };

    /// Reads what stands on the board at a place, counted from 0, as its `read` does; false if there is no
    /// board.
    fn view(&mut self, at: u64, buf: &mut [u8]) -> bool
        ensures views { TakesView (views self.old) (views self.new) at (length buf.old) result
            buf.new }
        ensures same { (readings self.new ≡ readings self.old)
            × (wall_is self.new ≡ wall_is self.old) × (word_is self.new ≡ word_is self.old)
            × (left_at_wall self.new ≡ left_at_wall self.old)
            × (last self.new ≡ last self.old) }
        ensures page { (origin_is self.new ≡ origin_is self.old)
            × (delay_is self.new ≡ delay_is self.old) × (boarded self.new ≡ boarded self.old)
            × (marks self.new ≡ marks self.old) };

    /// Counts at another rate, in parts in 10^9, from this tick on, and answers from where ticks are
    /// counted then: what `Origin::retuned` gives. None, and nothing is changed, if that gives none, and
    /// if it isn't known from where they are counted.
    fn retune(&mut self, tick: u64, rate: i64) -> Option<Origin>
        ensures answers { IfSome (origin_is self.old)
            (λ origin. result ≡ option_and_then (λ o. retuned tick rate o) origin) }
        ensures origin { origin_is self.new
            ≡ option_map (λ origin. origin_then result origin) (origin_is self.old) }
        ensures same { (readings self.new ≡ readings self.old)
            × (wall_is self.new ≡ wall_is self.old) × (word_is self.new ≡ word_is self.old)
            × (left_at_wall self.new ≡ left_at_wall self.old)
            × (last self.new ≡ last self.old) }
        ensures page { (delay_is self.new ≡ delay_is self.old)
            × (boarded self.new ≡ boarded self.old) × (marks self.new ≡ marks self.old)
            × (views self.new ≡ views self.old) };
}
