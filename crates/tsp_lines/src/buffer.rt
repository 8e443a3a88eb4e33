//! The buffer of a reader.
ghost use Rattle.std.specs.Prelude.{◌≡◌, ℕ, List, ◌≤◌, ◌<◌, ◌+◌, ◌-◌, ◌++◌, length, take};
ghost use Rattle.std.specs.Prelude.{slice_range, true, if◌then◌else◌};
ghost use Rattle.tsp_io.specs.Streams.{Gives};
ghost use Rattle.tsp_lines.specs.Lines.{IsOver};
ghost use Rattle.tsp_lines.specs.Readings.{count_of, is_end};
ghost use Rattle.tsp_lines.specs.Faults.{Counts};

use tsp_io::source::{Got, Source};

/// Moves the octets from place `from` up to `to` to the front.
fn move_front(buf: &mut [u8], from: usize, to: usize)
    requires ordered { from ≤ to }
    requires within { to ≤ length buf.old }
    ensures { take (to - from) buf.new ≡ slice_range buf.old from to }
{
    buf.copy_within(from..to, 0);
}

/// Reads at most `most` octets, and puts them after the first `held`.
fn read_behind<S: Source>(source: &mut S, buf: &mut [u8], held: usize, most: usize) -> Got
    requires some { 0 < most }
    requires room { held + most ≤ length buf.old }
    ensures read { Gives (S.left source.old) (S.left source.new)
        (slice_range buf.new held (held + count_of result)) }
    ensures held { take held buf.new ≡ take held buf.old }
    ensures most { count_of result ≤ most }
    ensures faults { Counts (S.faults source.old) (S.faults source.new) (result ≡ Got.Failed) }
    ensures over { result ≡ Got.Got 0 → IsOver (S.left source.new) }
    ensures ended { S.ended source.new ≡ (if is_end result then true else S.ended source.old) }
{
    source.read(&mut buf[held..held + most])
}

/// Moves the octets from place `from` up to `to` to the front, and reads at most `most` octets after them.
pub(crate) fn refill<S: Source>(
    source: &mut S,
    buf: &mut [u8],
    from: usize,
    to: usize,
    most: usize,
) -> Got
    requires ordered { from ≤ to }
    requires within { to ≤ length buf.old }
    requires some { 0 < most }
    requires room { to - from + most ≤ length buf.old }
    ensures read { (octets : List ℕ) × Gives (S.left source.old) (S.left source.new) octets
        × (length octets ≡ count_of result)
        × (take (to - from + count_of result) buf.new ≡ slice_range buf.old from to ++ octets) }
    ensures most { count_of result ≤ most }
    ensures faults { Counts (S.faults source.old) (S.faults source.new) (result ≡ Got.Failed) }
    ensures over { result ≡ Got.Got 0 → IsOver (S.left source.new) }
    ensures ended { S.ended source.new ≡ (if is_end result then true else S.ended source.old) }
{
    move_front(buf, from, to);
    read_behind(source, buf, to - from, most)
}
