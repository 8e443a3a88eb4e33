//! Corrections as acts: each call puts a Correct on the desk and moves the clock.
ghost use Rattle.std.specs.Prelude.{◌≡◌, ◌+◌, ◌≤◌, ◌+ℤ◌, ◌-ℤ◌, true};
ghost use Rattle.tsp_base.specs.Frames.{IsTick, Uses};
ghost use Rattle.tsp_base.specs.Performs.{Performs};
ghost use Rattle.tsp_rules.specs.ClockRows.{adjusts, sets, is_step};
ghost use Rattle.tsp_rules.specs.Guards.{is_clock_value};
ghost use Rattle.tsp_clock.specs.Clocks.{target_of, adjusted, set_to};
ghost use Rattle.tsp_clock.specs.ClockStands.{ClockStands};

use crate::clock::{Clock, is_clock_value};
use tsp_base::act::Act;
use tsp_base::desk::Desk;
use tsp_base::place::Port;

impl Clock {
    /// Whether the clock can be moved by an amount, so that the target is still in its range.
    pub fn can_adjust(&self, tick: u64, amount: i64) -> bool
        requires tick { IsTick tick }
        requires later { self.now.at ≤ tick }
        ensures { result ≡ is_clock_value (target_of self.now tick +ℤ amount) }
    {
        match self.target(tick).checked_add(amount) {
            Some(target) => is_clock_value(target),
            None => false,
        }
    }

    /// Corrects the clock by an amount. `can_adjust` must be true of it.
    pub fn correct_by<D: Desk>(&mut self, tick: u64, amount: i64, port: Port, desk: &mut D)
        requires tick { IsTick tick }
        requires later { self.old.at ≤ tick }
        requires range { is_clock_value (target_of self.old tick +ℤ amount) ≡ true }
        requires room { 1 ≤ D.spare desk.old }
        ensures row { Performs ClockStands ClockStands (adjusts amount) tick port self.old self.new
            (D.acts desk.old) (D.acts desk.new) }
        ensures clock { self.new ≡ adjusted self.old tick amount }
        ensures room { Uses 1 D.spare D.acts desk.old desk.new }
    {
        let stepped = self.adjust_in_range(tick, amount);
        let shown = self.shown(tick);
        desk.put(
            port,
            Act::Correct {
                amount,
                stepped,
                shown,
            },
        );
    }

    /// Sets the clock to a value strictly between -`LIMIT` and `LIMIT`.
    pub fn correct_to<D: Desk>(&mut self, tick: u64, value: i64, port: Port, desk: &mut D)
        requires tick { IsTick tick }
        requires later { self.old.at ≤ tick }
        requires range { is_clock_value value ≡ true }
        requires room { 1 ≤ D.spare desk.old }
        ensures row { Performs ClockStands ClockStands (sets value) tick port self.old self.new
            (D.acts desk.old) (D.acts desk.new) }
        ensures clock { self.new ≡ set_to self.old tick value }
        ensures room { Uses 1 D.spare D.acts desk.old desk.new }
    {
        let amount = self.set_in_range(tick, value);
        desk.put(
            port,
            Act::Correct {
                amount,
                stepped: true,
                shown: value,
            },
        );
    }

    /// Adjusts a clock where `can_adjust` is true, and says whether it stepped.
    fn adjust_in_range(&mut self, tick: u64, amount: i64) -> bool
        requires tick { IsTick tick }
        requires later { self.old.at ≤ tick }
        requires range { is_clock_value (target_of self.old tick +ℤ amount) ≡ true }
        ensures stepped { result ≡ is_step amount }
        ensures clock { self.new ≡ adjusted self.old tick amount }
    {
        match self.adjust(tick, amount) {
            Ok(stepped) => stepped,
            Err(_) => unreachable!(),
        }
    }

    /// Sets a clock to a value in its range, and gives the amount by which its target moved.
    fn set_in_range(&mut self, tick: u64, value: i64) -> i64
        requires tick { IsTick tick }
        requires later { self.old.at ≤ tick }
        requires range { is_clock_value value ≡ true }
        ensures amount { result ≡ value -ℤ target_of self.old tick }
        ensures clock { self.new ≡ set_to self.old tick value }
    {
        match self.set(tick, value) {
            Ok(amount) => amount,
            Err(_) => unreachable!(),
        }
    }
}
