//! The alarms of a port: one table.
ghost use Rattle.std.specs.Prelude.{◌≡◌, ◌≤◌, ℕ, Some, None, IfSome, IsSome};
ghost use Rattle.tsp_base.specs.declared.alarm.Alarm.{Alarm};
ghost use Rattle.tsp_base.specs.Alarms.{Deadlines, deadline, with_deadline, none_armed, earlier, least_deadline};

use crate::alarm::Alarm;
use std::marker::Model;

/// What each alarm is armed for, in ticks.
#[derive(Drop)]
pub struct Alarms {
    /// By alarm, in the order of `Alarm`.
    deadlines: [Option<u64>; 8],
}

impl Model for Alarms {
    ghost use Rattle.std.specs.Prelude.{◌≡◌, length};
    ghost use Rattle.tsp_base.specs.Alarms.{Deadlines, deadlines_in};

    ghost Value = { Deadlines };

    ghost view = { λ a. deadlines_in a.deadlines };

    ghost invariant = { λ a. length a.deadlines ≡ 8 };
}

impl Alarms {
    /// No alarm is armed.
    pub fn new() -> Alarms
        ensures { result ≡ none_armed }
    {
        Alarms {
            deadlines: [None; 8],
        }
    }

    fn set(&mut self, a: Alarm, at: Option<u64>)
        ensures { self.new ≡ with_deadline self.old a at }
    {
        self.deadlines[a as usize] = at;
    }

    /// Arms an alarm for a tick, in place of an earlier deadline.
    pub fn arm(&mut self, a: Alarm, at: u64)
        ensures { self.new ≡ with_deadline self.old a (Some at) }
    {
        self.set(a, Some(at));
    }

    /// Turns an alarm off.
    pub fn off(&mut self, a: Alarm)
        ensures { self.new ≡ with_deadline self.old a None }
    {
        self.set(a, None);
    }

    /// Turns all alarms off.
    pub fn clear(&mut self)
        ensures { self.new ≡ none_armed }
    {
        *self = Alarms::new();
    }

    /// The tick that an alarm is armed for; None exactly where it isn't armed.
    pub fn at(&self, a: Alarm) -> Option<u64>
        ensures { result ≡ deadline self.now a }
    {
        self.deadlines[a as usize]
    }

    /// The earliest deadline; None exactly where no alarm is armed.
    pub fn least(&self) -> Option<u64>
        ensures { result ≡ least_deadline self.now }
    {
        let mut least = None;
        for at in &self.deadlines {
            least = earlier(least, *at);
        }
        least
    }
}

/// The earlier of two deadlines, of which either may be missing.
pub fn earlier(a: Option<u64>, b: Option<u64>) -> Option<u64>
    ensures { result ≡ earlier a b }
{
    match (a, b) {
        (Some(x), Some(y)) => Some(x.min(y)),
        (Some(x), None) => Some(x),
        (None, other) => other,
    }
}

/// The earliest deadline is one of those armed, and none is armed for an earlier tick.
pub fn least_is_least()
    ensures armed { (d : Deadlines) (t : ℕ) → least_deadline d ≡ Some t
        → (a : Alarm) × (deadline d a ≡ Some t) }
    ensures first { (d : Deadlines) (a : Alarm) (t : ℕ) → deadline d a ≡ Some t
        → IfSome (least_deadline d) (λ l. l ≤ t) × IsSome (least_deadline d) }
{}
