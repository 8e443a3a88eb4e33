//! What is counted of a run.
ghost use Rattle.std.specs.Prelude.{◌≡◌, ◌+◌, ◌<◌, ◌^◌, ◌≤◌, [], length, if◌then◌else◌};
ghost use Rattle.tsp_rules.specs.RoundRows.{is_correct};
ghost use Rattle.tsp_storm.specs.Summaries.{acts_like, is_arrival, is_mastership, CountsLines};

use tsp_base::act::Act;
use tsp_base::role::Role;
use tsp_run::line::Line;

/// How often something was done in a run.
///
/// The numbers are so wide that they need no bound on the acts of an event.
#[derive(Clone, Copy, PartialEq, Eq, Debug)]
pub struct Counts {
    /// Octets reached a node.
    pub took: u128,
    /// A clock was corrected.
    pub corrects: u128,
    /// A node became master.
    pub masters: u128,
}

impl Counts {
    /// Of a run of no events.
    pub fn new() -> Counts
        ensures counted { CountsLines [] result }
    {
        Counts {
            took: 0,
            corrects: 0,
            masters: 0,
        }
    }

    /// Counts an act.
    fn add(&mut self, act: &Act)
        requires took { self.old.took + 1 < 2 ^ 128 }
        requires corrects { self.old.corrects + 1 < 2 ^ 128 }
        requires masters { self.old.masters + 1 < 2 ^ 128 }
        ensures took { self.new.took ≡ self.old.took + (if is_arrival act.now then 1 else 0) }
        ensures corrects { self.new.corrects ≡ self.old.corrects + (if is_correct act.now then 1
            else 0) }
        ensures masters { self.new.masters ≡ self.old.masters + (if is_mastership act.now then 1
            else 0) }
    {
        match act {
            Act::Took(_, _) => self.took += 1,
            Act::Correct { .. } => self.corrects += 1,
            Act::Become(Role::Master) => self.masters += 1,
            _ => {}
        }
    }

    /// Counts the acts of an event.
    pub fn add_all(&mut self, lines: &[Line])
        requires took { self.old.took + length lines.now < 2 ^ 128 }
        requires corrects { self.old.corrects + length lines.now < 2 ^ 128 }
        requires masters { self.old.masters + length lines.now < 2 ^ 128 }
        ensures took { self.new.took ≡ self.old.took + acts_like is_arrival lines.now }
        ensures corrects { self.new.corrects ≡ self.old.corrects + acts_like is_correct lines.now }
        ensures masters { self.new.masters ≡ self.old.masters + acts_like is_mastership lines.now }
        ensures few_took { self.new.took ≤ self.old.took + length lines.now }
        ensures few_corrects { self.new.corrects ≤ self.old.corrects + length lines.now }
        ensures few_masters { self.new.masters ≤ self.old.masters + length lines.now }
    {
        for line in lines {
            self.add(&line.placed.act);
        }
    }
}
