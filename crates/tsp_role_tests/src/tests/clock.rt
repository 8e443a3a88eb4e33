//! A clock that is corrected at the ends of its range, and one that slews.
ghost use Rattle.std.specs.Prelude.{◌≡◌, ◌≤◌, IfOk};

use crate::tests::clock::Change::{By, To};
use tsp_base::constants::LIMIT;
use tsp_clock::clock::{Clock, ClockFault};

/// A correction at tick 0: by an amount, or to a value.
#[derive(Clone, Copy)]
enum Change {
    By(i64),
    To(i64),
}

/// A correction; whether the clock steps and by how much, or None where it would leave its range; its ticket
/// then, and what it shows at some ticks.
type Row = (Change, Option<(bool, i64)>, u16, &'static [(u32, i64)]);

/// A clock that boots at tick 0 and shows the greatest value that a clock can.
fn latest() -> Result<Clock, ClockFault>
    ensures { IfOk result (λ c. c.at ≡ 0) }
{
    Clock::boot(0, LIMIT - 1, 7)
}

/// Corrects the clock.
fn correct(clock: &mut Clock, change: Change) -> Option<(bool, i64)>
    requires { clock.old.at ≤ 0 }
    ensures { clock.new.at ≤ 0 }
{
    match change {
        By(amount) => match clock.adjust(0, amount) {
            Ok(stepped) => Some((stepped, amount)),
            Err(ClockFault::Range) => None,
        },
        To(value) => match clock.set(0, value) {
            Ok(amount) => Some((true, amount)),
            Err(ClockFault::Range) => None,
        },
    }
}

/// Whether the clock shows these values at these ticks.
fn shows(clock: &Clock, values: &[(u32, i64)]) -> bool
    requires { clock.now.at ≤ 0 }
{
    for (tick, value) in values {
        if clock.shown(u64::from(*tick)) != *value {
            return false;
        }
    }
    true
}

/// Corrects the clock again and again. The index of the first row that goes wrong.
fn first_wrong(clock: &mut Clock, rows: &[Row]) -> Option<usize>
    requires { clock.old.at ≤ 0 }
{
    for (i, (change, done, ticket, values)) in rows.iter().enumerate() {
        if correct(clock, *change) != *done || clock.ticket() != *ticket || !shows(clock, values) {
            return Some(i);
        }
    }
    None
}

/// Corrections past the ends of the range, and from end to end.
const ENDS: [Row; 4] = [
    (By(1), None, 7, &[(0, LIMIT - 1), (5, LIMIT + 4)]),
    (To(-LIMIT), None, 7, &[(0, LIMIT - 1), (5, LIMIT + 4)]),
    (
        By(-20_000_001),
        Some((true, -20_000_001)),
        8,
        &[(0, LIMIT - 20_000_002)],
    ),
    (
        To(1_000),
        Some((true, 20_001_002 - LIMIT)),
        9,
        &[(5, 1_005)],
    ),
];

/// A small amount is slewed.
const SLEWS: [Row; 1] = [(
    By(-20_000_000),
    Some((false, -20_000_000)),
    8,
    &[
        (0, LIMIT - 1),
        (3_999_999_999, LIMIT + 3_979_999_999),
        (4_000_000_000, LIMIT + 3_979_999_999),
    ],
)];

/// Runs of corrections, each of a new clock.
const RUNS: [&[Row]; 2] = [&ENDS, &SLEWS];

#[test]
fn corrects_within_its_range(rt: HostRuntime) {
    assert!(rt; Clock::boot(0, LIMIT, 7).is_err());
    for (run, rows) in RUNS.iter().enumerate() {
        let Ok(mut clock) = latest() else {
            panic!(rt; "the wall is in range");
        };
        assert!(rt; clock.target(5) == LIMIT + 4);
        let wrong = first_wrong(&mut clock, rows);
        assert!(rt; wrong.is_none(), "row {wrong:?} of run {run}");
    }
}
