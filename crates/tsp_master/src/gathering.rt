//! The group of clocks that a round's samples give.
ghost use Rattle.std.specs.Prelude.{◌≡◌, ◌+◌, ◌<◌, ◌++◌, [], length};
ghost use Rattle.tsp_base.specs.declared.constants.TheConstants.{SPAN};
ghost use Rattle.tsp_group.specs.Groups.{group_of, mean_of, HasMean};
ghost use Rattle.tsp_group.specs.Values.{IsNear};
ghost use Rattle.tsp_rules.specs.RoundRows.{diff_before, estimates, is_near, mean_by};
ghost use Rattle.tsp_master.specs.Closing.{estimate_with, round_of};

use crate::master::Master;
use tsp_base::constants::{FAR, SPAN};
use tsp_base::place::PeerId;
use tsp_group::{Group, largest, mean};

impl Master {
    /// The largest group of clocks that agree within `SPAN` microseconds, of the own clock and the measured
    /// ones that differ from it by less than `FAR`.
    pub(crate) fn group(&mut self) -> Group
        ensures group { result ≡ group_of SPAN (estimates (round_of self.old.slaves self.old.rounds)) }
        ensures mean { HasMean result × IsNear (mean_of result) }
        ensures slaves { self.new.slaves ≡ self.old.slaves }
        ensures rounds { self.new.rounds ≡ self.old.rounds }
    {
        self.gather();
        largest(&mut self.values, SPAN)
    }

    /// Lists the differences that are averaged, in microseconds: 0 for the own clock, and those of the best
    /// samples.
    fn gather(&mut self)
        ensures items { self.new.values.items ≡ estimates
            (round_of self.old.slaves self.old.rounds) }
        ensures slaves { self.new.slaves ≡ self.old.slaves }
        ensures rounds { self.new.rounds ≡ self.old.rounds }
    {
        self.values.clear();
        self.values.add(0);
        for place in 0..self.slaves.len() {
            let entry = self.slaves.at(place);
            if entry.measured {
                self.add_estimate(entry.peer);
            }
        }
    }

    /// Adds the difference of a peer's best sample, where it has one that is averaged.
    fn add_estimate(&mut self, peer: PeerId)
        requires { length self.old.values.items < self.old.values.room }
        ensures items { self.new.values.items ≡ self.old.values.items ++ diff_before
            (estimate_with self.old.rounds peer) [] }
        ensures room { self.new.values.room ≡ self.old.values.room }
        ensures slaves { self.new.slaves ≡ self.old.slaves }
        ensures rounds { self.new.rounds ≡ self.old.rounds }
    {
        if let Some(best) = self.rounds.best(peer) {
            if is_near(best.diff) {
                self.values.add(best.diff);
            }
        }
    }
}

/// Whether a difference, in microseconds, is averaged: its magnitude is less than `FAR`.
pub(crate) fn is_near(diff: i64) -> bool
    ensures { result ≡ is_near diff }
{
    diff.unsigned_abs() < FAR.unsigned_abs()
}

/// The mean by which a close corrects, in microseconds: the group's, or 0 where another port of the node leads
/// its clock.
pub(crate) fn mean_by(own: bool, group: &Group) -> i64
    requires { HasMean group.now × IsNear (mean_of group.now) }
    ensures value { result ≡ mean_by own group.now }
    ensures near { IsNear result }
{
    if own { mean(group) } else { 0 }
}
