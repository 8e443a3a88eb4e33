//! The largest group of values, by a sort and one sweep.
ghost use Rattle.std.specs.Prelude.{◌≡◌, pos, ◌+ℤ◌, ◌-ℤ◌, ◌≤ℤ◌, ◌<ℤ◌, ◌+◌, ◌-◌, ◌*◌, ◌^◌, ◌≤◌, ◌<◌};
ghost use Rattle.std.specs.Prelude.{length, min, slice_index_or};
ghost use Rattle.std.specs.List.{All};
ghost use Rattle.std.specs.List.Sorted.{IsPermutation};
ghost use Rattle.tsp_group.specs.Groups.{group_of, mean_of, HasMean, IsLargest, FollowsMajority};
ghost use Rattle.tsp_group.specs.declared.group.Group.{Group};
ghost use Rattle.tsp_group.specs.Values.{IsNear, IsAscending};
ghost use Rattle.tsp_group.specs.Windows.{IsBest, IsWindow};

use crate::group::Group;
use crate::values::Values;
use crate::window::Window;

/// Moves the window's end on by one value, and gives the best group so far.
///
/// The window never gets shorter, since a group of fewer members than the best one can't be better.
fn advance(window: &mut Window, values: &mut Values, span: u64, best: Group) -> Group
    requires window { IsWindow values.old.items window.old }
    requires some { window.old.end < length values.old.items }
    requires near { All IsNear values.old.items }
    requires small { length values.old.items < 2 ^ 32 }
    requires ascending { IsAscending values.old.items }
    requires span { span ≤ 2 ^ 31 }
    requires best { IsBest span values.old.items (window.old.end - window.old.first) window.old.end
        best }
    ensures window { IsWindow values.new.items window.new }
    ensures end { window.new.end ≡ window.old.end + 1 }
    ensures best { IsBest span values.new.items (window.new.end - window.new.first) window.new.end
        result }
    ensures items { values.new.items ≡ values.old.items }
    ensures room { values.new.room ≡ values.old.room }
    ensures looks { values.new.looks + window.old.first ≤ values.old.looks + window.new.first + 1 }
{
    let value = window.slide(values, span);
    if window.reaches(value, span) {
        best.better(window.group(value))
    } else {
        best
    }
}

/// The largest group of values in ascending order.
fn largest_sorted(values: &mut Values, span: u64) -> Group
    requires some { 0 < length values.old.items }
    requires ascending { IsAscending values.old.items }
    requires span { span ≤ 2 ^ 31 }
    ensures group { result ≡ group_of span values.old.items }
    ensures items { values.new.items ≡ values.old.items }
    ensures room { values.new.room ≡ values.old.room }
    ensures looks { values.new.looks ≤ values.old.looks + 2 * length values.old.items }
{
    let mut best = Group::NONE;
    let mut window = Window::begin(values);
    while window.end < values.len() {
        best = advance(&mut window, values, span, best);
    }
    best
}

/// The largest group of values of which none is more than `span` microseconds above the least.
///
/// Of groups with as many members it is that of lesser width, then of lesser magnitude of `lo`, then of
/// lesser `lo`. Afterwards the list has the same values, maybe in another order.
pub fn largest(values: &mut Values, span: u64) -> Group
    requires some { 0 < length values.old.items }
    requires span { span ≤ 2 ^ 31 }
    ensures group { result ≡ group_of span values.old.items }
    ensures largest { IsLargest span values.old.items result }
    ensures only { (other : Group) → IsLargest span values.old.items other → other ≡ result }
    ensures majority { FollowsMajority span values.old.items (mean_of result) }
    ensures mean { HasMean result × IsNear (mean_of result) }
    ensures same { IsPermutation values.old.items values.new.items }
    ensures room { values.new.room ≡ values.old.room }
    ensures looks { values.new.looks ≤ values.old.looks + 2 * length values.old.items }
{
    values.sort();
    largest_sorted(values, span)
}
