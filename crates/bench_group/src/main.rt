//! The time of the largest group of many values beside that of a sort alone.
//!
//! Standard output has the groups. Standard error has, for each number of values, the nanoseconds a value of
//! `sort_unstable` and of `largest`, and the second over the first in hundredths.
#![tactic(auto)]

ghost use Rattle.std.specs.Prelude.{◌^◌, ◌<◌, length};

use std::alloc::{AllocError, Global};
use std::io;
use std::time::Instant;
use tsp_group::{Group, Values, largest};

/// The span of a group in microseconds.
const SPAN: u64 = 20_000;

/// How many values are sorted for each line.
const WORK: usize = 4_000_000;

/// Made-up numbers below 2^20.
fn made_up(alloc: Global, count: usize) -> Result<Vec<i64>, AllocError> {
    let mut numbers = Vec::with_capacity(alloc, count)?;
    let mut state = 1u64;
    for _ in 0..count {
        state = state
            .wrapping_mul(6_364_136_223_846_793_005)
            .wrapping_add(1_442_695_040_888_963_407);
        numbers.push((state >> 44) as i64)?;
    }
    Ok(numbers)
}

/// The numbers as differences in microseconds, from half a second behind to half a second ahead.
fn filled(alloc: Global, numbers: &[i64]) -> Result<Values, AllocError>
    requires { length numbers.now < 2 ^ 32 }
{
    let mut values = Values::new(alloc, numbers.len())?;
    for number in numbers {
        if values.len() < numbers.len() {
            values.add(*number % 1_048_576 - 524_288);
        }
    }
    Ok(values)
}

/// The nanoseconds that sorting a copy takes.
fn time_sort(rt: HostRuntime, numbers: &[i64]) -> io::Result<u64> {
    let mut sorted = Vec::from_slice(rt.alloc(), numbers)?;
    let start = Instant::now(&rt)?;
    sorted.sort_unstable();
    let time = start.elapsed(&rt)?.as_nanos();
    Ok(u64::try_from(time).unwrap_or(u64::MAX))
}

/// The largest group, and the nanoseconds that finding it takes; None without numbers or with too many.
fn time_largest(rt: HostRuntime, numbers: &[i64]) -> io::Result<Option<(Group, u64)>> {
    if numbers.len() > 1_000_000 {
        return Ok(None);
    }
    let mut values = filled(rt.alloc(), numbers)?;
    if values.len() == 0 {
        return Ok(None);
    }
    let start = Instant::now(&rt)?;
    let group = largest(&mut values, SPAN);
    let time = start.elapsed(&rt)?.as_nanos();
    Ok(Some((group, u64::try_from(time).unwrap_or(u64::MAX))))
}

/// Writes a line for so many values.
fn compare(rt: HostRuntime, count: usize) -> io::Result<()> {
    let numbers = made_up(rt.alloc(), count)?;
    let mut sort = 0u64;
    let mut group = 0u64;
    let mut last = None;
    for _ in 0..WORK / count.max(1) {
        sort = sort.saturating_add(time_sort(rt, &numbers)?);
        if let Some((found, time)) = time_largest(rt, &numbers)? {
            group = group.saturating_add(time);
            last = Some(found);
        }
    }
    if let Some(found) = last {
        println!(rt;
            "{count} values: lo {}, width {}, count {}",
            found.lo, found.width, found.count
        )?;
    }
    let ratio = group.saturating_mul(100) / sort.max(1);
    eprintln!(rt;
        "{count} values: sort {} ns, largest {} ns, ratio {ratio}",
        sort / WORK as u64,
        group / WORK as u64
    )
}

fn main(rt: HostRuntime) -> io::Result<()> {
    for count in [1_000, 10_000, 100_000, 1_000_000] {
        compare(rt, count)?;
    }
    Ok(())
}
