//! The clocks of a schedule's nodes.
ghost use Rattle.std.specs.Prelude.{◌≡◌, ◌≤◌, ◌<◌, ◌^◌, ◌+ℤ◌, pos, length, nat_abs};
ghost use Rattle.tsp_audit.specs.Settings.{clock_in};
ghost use Rattle.tsp_base.specs.Ticks.{tick_at};
ghost use Rattle.tsp_run.specs.Setup.{node_line};
ghost use Rattle.tsp_history.specs.Clocks.{IsSmall, IsSumOf};
ghost use Rattle.tsp_history.specs.Histories.{history_of};
ghost use Rattle.tsp_history.specs.Notes.{Told};

use tsp_base::constants::SCHEDULE_END;
use tsp_base::drift::tick_at;
use tsp_base::header::Header;
use tsp_history::clocks::moved_at;
use tsp_history::line::HistoryLine;

/// A node's rate, in millionths, and its wall clock at tick 0, in microseconds; 0 for a number that
/// no node has.
pub(crate) fn clock_of(header: &Header, node: u32) -> (i32, i64)
    ensures rate { result.0 ≡ (node_line header.now node).rate }
    ensures small { nat_abs result.0 ≤ 1000 }
    ensures wall { result.1 ≡ (node_line header.now node).wall }
{
    match header.nodes().get(node as usize) {
        Some(line) => (line.rate, line.wall),
        None => (0, 0),
    }
}

/// The tick of a counter that gains `rate` microseconds a second, at a true time of a schedule.
pub(crate) fn tick_of(rate: i32, at: u64) -> u64
    requires { nat_abs rate ≤ 1000 }
    ensures { at ≤ 1000000000000000 → result ≡ tick_at rate at }
{
    if at <= SCHEDULE_END {
        tick_at(rate, at)
    } else {
        at
    }
}

/// A clock's wall at tick 0, the amounts of its corrections, and its tick, in microseconds.
#[tactic(auto, using(std::proofs::lemmas::Int::ints))]
pub(crate) fn add(wall: i64, moved: i128, tick: u64) -> i128
    requires { IsSumOf 4294967295 moved }
    ensures sum { result ≡ (wall +ℤ moved) +ℤ pos tick }
    ensures small { IsSmall result }
{
    let base = i128::from(wall) + moved;
    base + i128::from(tick)
}

/// A node's clock at a true time of a schedule after these lines, in microseconds: its wall at tick
/// 0, its tick then, and the amounts of its corrections since its last boot.
pub(crate) fn clock_at(header: &Header, lines: &[HistoryLine], node: u32, at: u64) -> i128
    requires few { length lines.now < 2 ^ 32 }
    requires told { Told lines.now }
    ensures clock { at ≤ 1000000000000000 → result ≡ clock_in header.now node (history_of lines.now)
        at }
    ensures small { IsSmall result }
{
    let (rate, wall) = clock_of(header, node);
    add(wall, moved_at(lines, node), tick_of(rate, at))
}

/// The amounts of corrections, if they are no more than those of all lines can be; else 0.
pub(crate) fn bounded(moved: i128) -> i128
    ensures same { IsSumOf 4294967295 moved → result ≡ moved }
    ensures bounded { IsSumOf 4294967295 result }
{
    let most = 4_294_967_295 * 9_223_372_036_854_775_808;
    if 0 - most <= moved && moved <= most {
        moved
    } else {
        0
    }
}
