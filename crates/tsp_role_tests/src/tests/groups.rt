//! Groups that were worked out by hand, and the sweep compared with a program that tries every value.
ghost use Rattle.std.specs.Prelude.{◌^◌, ◌<◌, length};

use std::alloc::{AllocError, Global};
use std::test::Fail;
use tsp_group::{Group, Values, correction, largest, mean};

/// A difference that is averaged is less than this, in microseconds.
const FAR: i64 = 1_073_741_824_000_000;

/// The list of the near ones of these values.
fn listed(alloc: Global, items: &[i64]) -> Result<Values, AllocError>
    requires { length items.now < 2 ^ 32 }
{
    let mut values = Values::new(alloc, items.len())?;
    for item in items {
        if -FAR < *item && *item < FAR && values.len() < items.len() {
            values.add(*item);
        }
    }
    Ok(values)
}

/// The correction, if both are near.
fn near_correction(middle: i64, diff: i64) -> Option<i64> {
    if -FAR < middle && middle < FAR && -FAR < diff && diff < FAR {
        Some(correction(middle, diff))
    } else {
        None
    }
}

/// A group without members.
fn empty(lo: i64) -> Group {
    Group {
        lo,
        width: 0,
        count: 0,
        sum: 0,
    }
}

/// The group of the values from `lo` to `lo + span`, by one look at each.
fn tried(items: &[i64], lo: i64, span: i64) -> Group {
    let mut group = empty(lo);
    for item in items {
        let above = item.wrapping_sub(lo);
        if 0 <= above && above <= span {
            group.width = group.width.max(above);
            group.count = group.count.wrapping_add(1);
            group.sum = group.sum.wrapping_add(i128::from(*item));
        }
    }
    group
}

/// The better of two groups has the lower rank: the larger, then the narrower, then the one nearer to 0.
fn rank(group: &Group) -> (u32, i64, u64, i64) {
    (
        u32::MAX - group.count,
        group.width,
        group.lo.unsigned_abs(),
        group.lo,
    )
}

/// The definition's own program: it tries every value as `lo`.
fn tried_all(items: &[i64], span: i64) -> Group {
    let mut best = empty(0);
    for lo in items {
        let group = tried(items, *lo, span);
        if rank(&group) < rank(&best) {
            best = group;
        }
    }
    best
}

/// Values and a span; the `lo`, `width`, `count` and `sum` of their largest group, its mean, and the correction of
/// each value.
type Row = (
    &'static [i64],
    u32,
    (i64, i64, u32, i128),
    i64,
    &'static [i64],
);

const ROWS: [Row; 8] = [
    (
        &[0, 5_000, 9_000, 500_000],
        20_000,
        (0, 9_000, 3, 14_000),
        4_666,
        &[4_666, -334, -4_334, -495_334],
    ),
    (&[0, -30_000], 20_000, (0, 0, 1, 0), 0, &[0, 30_000]),
    (&[0, -1], 20_000, (-1, 1, 2, -1), -1, &[-1, 0]),
    (
        &[0, 20_000],
        20_000,
        (0, 20_000, 2, 20_000),
        10_000,
        &[10_000, -10_000],
    ),
    (&[0, 20_001], 20_000, (0, 0, 1, 0), 0, &[0, -20_001]),
    (&[5, 5, 5], 0, (5, 0, 3, 15), 5, &[0, 0, 0]),
    (&[-3, 3], 5, (-3, 0, 1, -3), -3, &[0, -6]),
    (&[7, 4, 1, -9, -4], 3, (1, 3, 2, 5), 2, &[-5, -2, 1, 11, 6]),
];

/// Whether each value has this correction.
fn are_corrected(items: &[i64], middle: i64, corrections: &[i64]) -> bool {
    for (item, amount) in items.iter().zip(corrections) {
        if near_correction(middle, *item) != Some(*amount) {
            return false;
        }
    }
    items.len() == corrections.len()
}

/// The largest group of these values and its mean. None where there aren't so many of them, or none, or the sweep
/// looked too often.
fn group_of(values: &mut Values, count: usize, span: u32) -> Option<(Group, i64)> {
    if values.len() != count || count == 0 || count >= 100 || span > 1 << 31 {
        return None;
    }
    let group = largest(values, span as u64);
    if values.looks() > 2 * count as u64 {
        return None;
    }
    Some((group, mean(&group)))
}

/// The same of these values, at most 99.
fn swept(alloc: Global, items: &[i64], span: u32) -> Result<Option<(Group, i64)>, AllocError> {
    if items.len() >= 100 {
        return Ok(None);
    }
    let mut values = listed(alloc, items)?;
    Ok(group_of(&mut values, items.len(), span))
}

/// The index of the first row whose group isn't found.
fn first_wrong(alloc: Global, rows: &[Row]) -> Result<Option<usize>, AllocError> {
    for (i, (items, span, members, middle, corrections)) in rows.iter().enumerate() {
        let (lo, width, count, sum) = *members;
        let group = Group {
            lo,
            width,
            count,
            sum,
        };
        let found = swept(alloc, items, *span)?;
        if found != Some((group, *middle)) || !are_corrected(items, *middle, corrections) {
            return Ok(Some(i));
        }
    }
    Ok(None)
}

#[test]
fn takes_the_largest_group(rt: HostRuntime) -> Result<(), Fail> {
    assert_eq!(rt; first_wrong(rt.alloc(), &ROWS)?, None);
    Ok(())
}

/// The next number of a row that looks like chance.
fn next_of(seed: u64) -> u64 {
    seed.wrapping_mul(6_364_136_223_846_793_005)
        .wrapping_add(1_442_695_040_888_963_407)
}

/// So many small numbers, and the last of their row.
fn small_numbers(alloc: Global, seed: u64, count: u32) -> Result<(Vec<i64>, u64), AllocError> {
    let mut items = Vec::new(alloc);
    let mut last = seed;
    for _ in 0..count {
        last = next_of(last);
        items.push((last >> 60) as i64 - 8)?;
    }
    Ok((items, last))
}

/// Whether the sweep and the program that tries all find the same group.
fn agree(alloc: Global, items: &[i64], span: u32) -> Result<bool, AllocError> {
    let found = swept(alloc, items, span)?;
    Ok(found.map(|(group, _)| group) == Some(tried_all(items, i64::from(span))))
}

/// Whether they agree on the row that begins here, and where the next row begins.
fn agree_on(alloc: Global, seed: u64, round: u32) -> Result<(bool, u64), AllocError> {
    let (items, last) = small_numbers(alloc, seed, 1 + round % 13)?;
    Ok((agree(alloc, &items, round % 7)?, last))
}

#[test]
fn agrees_with_the_program_that_tries_all(rt: HostRuntime) -> Result<(), Fail> {
    let mut seed = 1u64;
    for round in 0..400u32 {
        let (is_same, last) = agree_on(rt.alloc(), seed, round)?;
        seed = last;
        assert!(rt; is_same, "of row {round}");
    }
    Ok(())
}
