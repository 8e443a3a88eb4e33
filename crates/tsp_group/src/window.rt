//! The window of the sorted list that the sweep goes over.
ghost use Rattle.std.specs.Prelude.{◌≡◌, pos, ◌+ℤ◌, ◌-ℤ◌, ◌≤ℤ◌, ◌<ℤ◌, ◌+◌, ◌-◌, ◌^◌, ◌≤◌, ◌<◌, length, slice_index_or};
ghost use Rattle.std.specs.Bool.{MatchBool};
ghost use Rattle.std.specs.List.{All};
ghost use Rattle.tsp_group.specs.Values.{IsNear};
ghost use Rattle.tsp_group.specs.Windows.{IsSmallSum, IsWindow, Moves};

use crate::group::Group;
use crate::values::Values;

/// Adjacent values of the sorted list, as many as the largest group has so far.
#[derive(Drop)]
pub(crate) struct Window {
    /// The place of the first value.
    first: usize,
    /// That value.
    lo: i64,
    /// The place after the last value.
    pub(crate) end: usize,
    /// The values' sum.
    sum: i128,
}

impl Window {
    /// The window without values before the first one.
    pub(crate) fn begin(values: &mut Values) -> Window
        requires { 0 < length values.old.items }
        ensures window { IsWindow values.new.items result }
        ensures place { (result.first ≡ 0) × (result.end ≡ 0) }
        ensures items { values.new.items ≡ values.old.items }
        ensures room { values.new.room ≡ values.old.room }
        ensures looks { values.new.looks ≤ values.old.looks + 1 }
    {
        let lo = values.look(0);
        Window {
            first: 0,
            lo,
            end: 0,
            sum: 0,
        }
    }

    /// Whether a value lies within the span of the first one.
    pub(crate) fn reaches(&self, value: i64, span: u64) -> bool
        requires lo { IsNear self.now.lo }
        requires value { IsNear value }
        requires span { span ≤ 2 ^ 31 }
        ensures { MatchBool result (value ≤ℤ (self.now.lo +ℤ pos span))
            ((self.now.lo +ℤ pos span) <ℤ value) }
    {
        value - self.lo <= span as i64
    }

    /// Adds the value at its end.
    fn admit(&mut self, value: i64)
        requires fits { IsSmallSum self.old.sum }
        requires small { self.old.end < 2 ^ 32 }
        ensures { self.new ≡ record self.old {
          end = self.old.end + 1;
          sum = self.old.sum +ℤ
              value;
        } }
    {
        self.end += 1;
        self.sum += i128::from(value);
    }

    /// Drops the first value.
    fn leave(&mut self, values: &mut Values)
        requires some { self.old.first + 1 < length values.old.items }
        requires small { self.old.first < 2 ^ 32 }
        requires fits { IsSmallSum self.old.sum }
        requires lo { IsNear self.old.lo }
        ensures window { self.new ≡ record self.old {
          first = self.old.first + 1;
          lo = slice_index_or values.old.items (self.old.first + 1) (pos 0);
          sum = self.old.sum -ℤ
              self.old.lo;
        } }
        ensures items { values.new.items ≡ values.old.items }
        ensures room { values.new.room ≡ values.old.room }
        ensures looks { values.new.looks ≤ values.old.looks + 1 }
    {
        self.sum -= i128::from(self.lo);
        self.first += 1;
        self.lo = values.look(self.first);
    }

    /// Adds the value at its end, which it gives, and drops the first one if that value is more than the
    /// span above it.
    pub(crate) fn slide(&mut self, values: &mut Values, span: u64) -> i64
        requires window { IsWindow values.old.items self.old }
        requires some { self.old.end < length values.old.items }
        requires near { All IsNear values.old.items }
        requires small { length values.old.items < 2 ^ 32 }
        requires span { span ≤ 2 ^ 31 }
        ensures window { IsWindow values.new.items self.new }
        ensures value { result ≡ slice_index_or values.new.items self.old.end (pos 0) }
        ensures near { IsNear result × IsNear self.new.lo }
        ensures end { self.new.end ≡ self.old.end + 1 }
        ensures moves { Moves span values.new.items self.old.first self.old.end self.new.first }
        ensures items { values.new.items ≡ values.old.items }
        ensures room { values.new.room ≡ values.old.room }
        ensures looks { values.new.looks + self.old.first ≤ values.old.looks + self.new.first + 1 }
    {
        let value = values.look(self.end);
        let reached = self.reaches(value, span);
        self.admit(value);
        if !reached {
            self.leave(values);
        }
        value
    }

    /// The group of the window, whose last member is `value`.
    pub(crate) fn group(&self, value: i64) -> Group
        requires lo { IsNear self.now.lo }
        requires value { IsNear value }
        requires small { (self.now.first ≤ self.now.end) × (self.now.end < 2 ^ 32) }
        ensures { result ≡ record {
          lo = self.now.lo;
          width = value -ℤ self.now.lo;
          count = self.now.end - self.now.first;
          sum = self.now.sum;
        } }
    {
        Group {
            lo: self.lo,
            width: value - self.lo,
            count: (self.end - self.first) as u32,
            sum: self.sum,
        }
    }
}
