//! What clocks show at one time, once their corrections are slewed.
ghost use Rattle.std.specs.Prelude.{◌≡◌, ◌≤◌, ◌-◌, ◌*◌, ◌^◌, ◌+ℤ◌, ◌-ℤ◌, ◌≤ℤ◌, neg_ℤ, pos, length, Some};
ghost use Rattle.tsp_audit.specs.Standings.{AllStand, StandsAs, reach_at};
ghost use Rattle.tsp_audit.specs.declared.round_correction.RoundCorrection.{RoundCorrection as CorrectionValue};
ghost use Rattle.tsp_base.specs.Ticks.{width};

use crate::clock::{add, bounded, clock_of, tick_of};
use crate::round_correction::NodeState;
use crate::shown::Standing;
use tsp_base::constants::SCHEDULE_END;
use tsp_base::drift::width;
use tsp_base::header::Header;

/// The most nodes that a schedule has.
pub(crate) const MOST_NODES: usize = 64;

/// How far, at most, a clock may have drifted since a reading, in microseconds.
fn drifted(drift: u32, at: u64, reading: u64) -> u64
    requires { drift ≤ 1000 }
    ensures { at ≤ 1000000000000000 → result ≡ width drift (at - reading) }
{
    let time = at.saturating_sub(reading);
    if time <= SCHEDULE_END {
        width(drift, time)
    } else {
        0
    }
}

/// An error, less what is to spare, and twice a drift, in microseconds.
#[tactic(auto, using(std::proofs::lemmas::Int::ints))]
fn reach(err: i64, spare: u32, drift: u64) -> i128
    ensures reach { result ≡ (err -ℤ pos spare) +ℤ pos (2 * drift) }
    ensures low { neg_ℤ (pos (2 ^ 70)) ≤ℤ result }
    ensures high { result ≤ℤ pos (2 ^ 70) }
{
    let drift = i128::from(drift);
    (i128::from(err) - i128::from(spare)) + (drift + drift)
}

/// By how much a node's clock may be wrong at a true time: the error of the reading by which a round
/// corrected it, less what is to spare, and twice its drift since; in microseconds, and 0 where no
/// round has.
fn reach_of(header: &Header, at: u64, spare: u32, a: &NodeState) -> i128
    ensures reach { at ≤ 1000000000000000 → (c : CorrectionValue) → a.now.from_round ≡ Some c
        → result ≡ reach_at header.now at spare c }
    ensures low { neg_ℤ (pos (2 ^ 70)) ≤ℤ result }
    ensures high { result ≤ℤ pos (2 ^ 70) }
{
    match &a.from_round {
        Some(c) => reach(c.err, spare, drifted(header.drift(), at, c.at)),
        None => 0,
    }
}

/// What a node's clock shows at a true time, and how it may be wrong with so much to spare.
fn stand_of(header: &Header, at: u64, spare: u32, node: u32, a: &NodeState) -> Standing
    ensures { at ≤ 1000000000000000 → StandsAs header.now at spare node a.now result }
{
    let (rate, wall) = clock_of(header, node);
    let clock = add(wall, bounded(a.moved), tick_of(rate, at));
    let reach = reach_of(header, at, spare, a);
    Standing {
        clock,
        low: clock - reach,
        high: clock + reach,
    }
}

/// The same of each of these nodes, at the index of the node.
pub(crate) fn standings(
    header: &Header,
    at: u64,
    spare: u32,
    states: &[NodeState],
) -> [Standing; MOST_NODES]
    requires { length states.now ≤ 64 }
    ensures { at ≤ 1000000000000000 → AllStand header.now at spare states.now result }
{
    let mut stand = [Standing {
        clock: 0,
        low: 0,
        high: 0,
    }; MOST_NODES];
    for node in 0..states.len() {
        stand[node] = stand_of(header, at, spare, node as u32, &states[node]);
    }
    stand
}
