//! Facts of a node's clock.
ghost use Rattle.std.specs.Prelude.{◌≡◌, ◌<◌, ◌≤◌, ◌+◌, ◌^◌, ℕ, [], pos, neg_ℤ, ◌-ℤ◌, ◌+ℤ◌, ◌≤ℤ◌};
ghost use Rattle.std.specs.Prelude.{List, ◌∷◌, length, MatchBool};
ghost use Rattle.tsp_base.specs.History.{Line, of, dids};
ghost use Rattle.tsp_base.specs.NodeFacts.{moved, target};
ghost use Rattle.tsp_history.specs.Clocks.{IsSmall, IsSumOf, KeepsClock};
ghost use Rattle.tsp_history.specs.Histories.{line_of, history_of};
ghost use Rattle.tsp_history.specs.Notes.{Told};
ghost use Rattle.tsp_history.specs.Spacing.{later_of, Spaced, SpacedBy};

use crate::brief::Brief;
use crate::line::{HistoryLine, Why};
use crate::notes::node_at;
use crate::ticks::is_far;
use tsp_base::constants::GAP;

/// What is known of a node's clock.
#[derive(Clone, Copy)]
pub struct Clock {
    /// What the clock showed at the tick of the last boot, in microseconds.
    wall: i64,
    /// The tick of the last boot.
    boot_tick: u64,
    /// The amounts of the corrections since, in microseconds.
    moved: i128,
}

impl Clock {
    /// The clock of a node that hasn't booted.
    pub(crate) fn new() -> Clock
        ensures keeps { (node : ℕ) → KeepsClock node [] result }
        ensures bounded { IsSumOf 0 result.moved }
    {
        Clock {
            wall: 0,
            boot_tick: 0,
            moved: 0,
        }
    }

    /// What it would show at tick 0 if it were never corrected, in microseconds: what it showed at
    /// the boot, less the boot's tick.
    fn base(&self) -> i128
        ensures base { result ≡ self.now.wall -ℤ pos self.now.boot_tick }
        ensures small { (neg_ℤ (pos (2 ^ 65)) ≤ℤ result) × (result ≤ℤ pos (2 ^ 65)) }
    {
        i128::from(self.wall) - i128::from(self.boot_tick)
    }

    /// Its target at a tick, in microseconds.
    pub(crate) fn target(&self, tick: u64) -> i128
        requires { IsSumOf 4294967295 self.now.moved }
        ensures target { result ≡ ((self.now.wall -ℤ pos self.now.boot_tick) +ℤ self.now.moved) +ℤ
            pos tick }
        ensures small { IsSmall result }
    {
        let moved = self.base() + self.moved;
        moved + i128::from(tick)
    }
}

/// The greater of two ticks; the second where there is no first.
fn later(early: Option<u64>, tick: u64) -> u64
    ensures { result ≡ later_of early tick }
{
    match early {
        Some(early) if tick < early => early,
        _ => tick,
    }
}

/// The greatest tick of a correction of a node's life after a line, where it was `was` before.
pub(crate) fn latest_after(line: &HistoryLine, node: u32, was: Option<u64>) -> Option<u64>
    ensures { (before : List Line) → SpacedBy node before was
        → SpacedBy node (line_of line.now ∷ before) result }
{
    if line.node != node {
        return was;
    }
    match line.act.brief() {
        Brief::Boot => None,
        Brief::Correct(_, _, _) => Some(later(was, line.tick)),
        _ => was,
    }
}

/// Whether a correction of a node at this tick comes `GAP`, 1,000,000 ticks, or more after each
/// before it since the node's last boot.
pub fn is_spaced(lines: &[HistoryLine], node: u32, tick: u64) -> bool
    requires told { Told lines.now }
    ensures { MatchBool result (Spaced node tick (history_of lines.now))
        (Spaced node tick (history_of lines.now) → ⊥) }
{
    match node_at(lines, node).latest {
        Some(latest) => is_far(latest, GAP, tick),
        None => true,
    }
}

/// What is seen of a clock after a line.
pub(crate) fn clock_after(line: &HistoryLine, node: u32, was: Clock) -> Clock
    requires { IsSumOf 4294967295 was.moved }
    ensures keeps { (before : List Line) → KeepsClock node before was
        → KeepsClock node (line_of line.now ∷ before) result }
    ensures bounded { (count : ℕ) → IsSumOf count was.moved → IsSumOf (count + 1) result.moved }
{
    if line.node != node {
        return was;
    }
    match line.act.brief() {
        Brief::Boot => Clock {
            wall: match line.why {
                Why::Booted(_, wall) => wall,
                _ => was.wall,
            },
            boot_tick: line.tick,
            moved: 0,
        },
        Brief::Correct(amount, _, _) => Clock {
            moved: was.moved + i128::from(amount),
            ..was
        },
        _ => was,
    }
}

/// The sum of a node's corrections since its last boot, in microseconds; 0 before one.
pub fn moved_at(lines: &[HistoryLine], node: u32) -> i128
    requires told { Told lines.now }
    ensures moved { result ≡ moved (dids (of node (history_of lines.now))) }
    ensures bounded { IsSumOf (length lines.now) result }
{
    node_at(lines, node).clock.moved
}

/// The target of a node's clock at a tick, in microseconds: what it shows once all corrections are
/// slewed.
pub fn target_at(lines: &[HistoryLine], node: u32, tick: u64) -> i128
    requires few { length lines.now < 2 ^ 32 }
    requires told { Told lines.now }
    ensures target { result ≡ target (dids (of node (history_of lines.now))) tick }
    ensures small { IsSmall result }
{
    node_at(lines, node).clock.target(tick)
}
