//! A group of values that agree, its mean, and the correction to it.
ghost use Rattle.std.specs.Prelude.{◌≡◌, ◌-ℤ◌};
ghost use Rattle.tsp_group.specs.Groups.{goes_before, better, no_group, mean_of, HasMean};
ghost use Rattle.tsp_group.specs.Values.{IsNear};

/// The group of the values from `lo` to `lo` plus a span, in microseconds.
#[derive(Clone, Copy, PartialEq, Eq, Debug)]
pub struct Group {
    /// The least member.
    pub lo: i64,
    /// The greatest member minus the least.
    pub width: i64,
    /// The number of members.
    pub count: u32,
    /// The members' sum.
    pub sum: i128,
}

impl Group {
    /// A group without members, which is worse than any other.
    pub(crate) const NONE: Group = Group {
        lo: 0,
        width: 0,
        count: 0,
        sum: 0,
    };

    /// Whether this group is the better one: the one with more members; of equal ones that of lesser width,
    /// then of lesser magnitude of `lo`, then of lesser `lo`.
    #[tactic(auto, unfolding(crate::specs::Groups::goes_before))]
    pub(crate) fn goes_before(&self, other: &Group) -> bool
        ensures { result ≡ goes_before self.now other.now }
    {
        if self.count != other.count {
            return other.count < self.count;
        }
        let (width, other_width) = (self.width.unsigned_abs(), other.width.unsigned_abs());
        if width != other_width {
            return width < other_width;
        }
        let (magnitude, other_magnitude) = (self.lo.unsigned_abs(), other.lo.unsigned_abs());
        if magnitude != other_magnitude {
            return magnitude < other_magnitude;
        }
        self.lo < other.lo
    }

    /// The better of two groups.
    #[tactic(auto, unfolding(crate::specs::Groups::better))]
    pub(crate) fn better(self, other: Group) -> Group
        ensures { result ≡ better self other }
    {
        if other.goes_before(&self) {
            other
        } else {
            self
        }
    }
}

/// The mean of a group's members in microseconds, rounded down.
pub fn mean(g: &Group) -> i64
    requires { HasMean g.now }
    ensures { result ≡ mean_of g.now }
{
    g.sum.div_euclid(i128::from(g.count)) as i64
}

/// The correction, in microseconds, that takes a clock with the difference `diff` to the mean. Both have a
/// magnitude of less than 2^30 seconds.
pub fn correction(mean: i64, diff: i64) -> i64
    requires mean { IsNear mean }
    requires diff { IsNear diff }
    ensures { result ≡ mean -ℤ diff }
{
    mean - diff
}
