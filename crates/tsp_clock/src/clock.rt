//! The corrected clock of a node.
ghost use Rattle.std.specs.Prelude.{◌≡◌, ◌+◌, ◌%◌, ◌≤◌, ◌<◌, ◌^◌, ℤ, pos, negsuc, nat_abs, ◌+ℤ◌};
ghost use Rattle.std.specs.Prelude.{◌-ℤ◌, ◌<ℤ◌, ◌≤ℤ◌, true, false, if◌then◌else◌, IfOk, IfErr, []};
ghost use Rattle.std.specs.Prelude.{◌∷◌};
ghost use Rattle.tsp_base.specs.declared.act.Act.TheVariants.{Boot};
ghost use Rattle.tsp_base.specs.Frames.{IsTick};
ghost use Rattle.tsp_base.specs.History.{Past, Booted};
ghost use Rattle.tsp_base.specs.Rows.{grown};
ghost use Rattle.tsp_rules.specs.ClockRows.{is_step};
ghost use Rattle.tsp_rules.specs.Guards.{is_clock_value};
ghost use Rattle.tsp_clock.specs.Clocks.{target_of, slew_rest, shown_of, adjusted, set_to};

use crate::slew::eased;
use std::marker::Model;
use thiserror::Error;
use tsp_base::constants::{LIMIT, MAXADJ, SLEW};

/// Why a clock can't be booted or corrected.
#[derive(Clone, Copy, PartialEq, Eq, Debug, Error)]
pub enum ClockFault {
    /// The target would not be strictly between -`LIMIT` and `LIMIT`.
    #[error("the clock would leave its range")]
    Range,
}

/// A clock in microseconds, driven by a node's ticks. A correction moves its target at once. The value that
/// it shows steps to the target where the correction is large; else it moves there by one microsecond
/// every `SLEW` ticks.
#[derive(Drop)]
pub struct Clock {
    offset: i64,
    rest: i64,
    at: u64,
    ticket: u16,
}

impl Model for Clock {
    ghost use Rattle.tsp_clock.specs.Clocks.{ClockValue, IsClock};

    ghost Value = { ClockValue };

    ghost view = { λ c. record { offset = c.offset; rest = c.rest; at = c.at; ticket = c.ticket } };

    ghost invariant = { λ c. IsClock (record {
      offset = c.offset;
      rest = c.rest;
      at = c.at;
      ticket = c.ticket;
    }) };
}

impl Clock {
    ghost use Rattle.tsp_clock.specs.ClockStands.{ClockStands};

    /// The clock of a node that boots at a tick: it shows `wall` (microseconds since 1970), and its first ticket is
    /// `word` modulo 32,768. `Range` comes exactly where `wall` isn't strictly between -`LIMIT` and `LIMIT`.
    pub fn boot(tick: u64, wall: i64, word: u64) -> Result<Clock, ClockFault>
        requires tick { IsTick tick }
        ensures ok { IfOk result (λ c. (is_clock_value wall ≡ true)
            × (c ≡ record {
              offset = wall -ℤ pos tick;
              rest = pos 0;
              at = tick;
              ticket = word % 32768;
            })) }
        ensures err { IfErr result (λ e. is_clock_value wall ≡ false) }
        ensures stands { IfOk result (λ c. (past : Past) → past.step.cause ≡ Booted word wall
            → ClockStands (grown tick past (Boot ∷ [])) c) }
    {
        if is_clock_value(wall) {
            Ok(Clock {
                offset: offset_at(wall, tick),
                rest: 0,
                at: tick,
                ticket: (word % 32768) as u16,
            })
        } else {
            Err(ClockFault::Range)
        }
    }

    /// The number that the next correction must have, 0 to 32,767.
    pub fn ticket(&self) -> u16
        ensures value { result ≡ self.now.ticket }
        ensures small { self.now.ticket < 32768 }
    {
        self.ticket
    }

    /// The tick of the last correction, or of the boot where there was none.
    pub fn corrected(&self) -> u64
        ensures value { result ≡ self.now.at }
        ensures tick { IsTick self.now.at }
    {
        self.at
    }

    /// How many microseconds were still to be slewed right after the last correction, or the boot.
    pub fn left(&self) -> i64
        ensures value { result ≡ self.now.rest }
        ensures small { nat_abs result ≤ 2 ^ 61 + 2 ^ 52 }
    {
        self.rest
    }

    /// The target at a tick, in microseconds. The tick must not be before the last correction.
    pub fn target(&self, tick: u64) -> i64
        requires tick { IsTick tick }
        requires later { self.now.at ≤ tick }
        ensures value { result ≡ target_of self.now tick }
        ensures low { negsuc 2147483647999999 <ℤ result }
        ensures high { result <ℤ pos (2147483648000000 + tick) }
    {
        self.offset + tick as i64
    }

    /// The value shown at a tick, in microseconds. The tick must not be before the last correction.
    pub fn shown(&self, tick: u64) -> i64
        requires tick { IsTick tick }
        requires later { self.now.at ≤ tick }
        ensures { result ≡ shown_of self.now tick }
    {
        self.target(tick) - self.rest(tick)
    }

    /// How many microseconds are still to be slewed at a tick.
    fn rest(&self, tick: u64) -> i64
        requires tick { IsTick tick }
        requires later { self.now.at ≤ tick }
        ensures value { result ≡ slew_rest self.now tick }
        ensures low { negsuc 2147483647999999 <ℤ shown_of self.now tick }
        ensures high { shown_of self.now tick ≤ℤ pos (2147483648000000 + tick) }
    {
        eased(self.rest, (tick - self.at) / SLEW)
    }

    /// Moves the target by an amount, in microseconds. True says that its magnitude is above `MAXADJ` and the
    /// shown value stepped to the target; false, that it will be slewed there. `Range` comes exactly where the
    /// new target isn't strictly between -`LIMIT` and `LIMIT`; then nothing changes.
    pub fn adjust(&mut self, tick: u64, amount: i64) -> Result<bool, ClockFault>
        requires tick { IsTick tick }
        requires later { self.old.at ≤ tick }
        ensures ok { IfOk result
            (λ stepped. (is_clock_value (target_of self.old tick +ℤ amount) ≡ true)
            × ((stepped ≡ is_step amount) × (self.new ≡ adjusted self.old tick amount))) }
        ensures err { IfErr result
            (λ e. (is_clock_value (target_of self.old tick +ℤ amount) ≡ false)
            × (self.new ≡ self.old)) }
    {
        match self.target(tick).checked_add(amount) {
            Some(target) if is_clock_value(target) => {
                let rest = self.rest_after(tick, amount);
                self.correct(tick, target, rest);
                Ok(is_step(amount))
            }
            _ => Err(ClockFault::Range),
        }
    }

    /// What is to be slewed right after an adjustment by an amount.
    fn rest_after(&self, tick: u64, amount: i64) -> i64
        requires tick { IsTick tick }
        requires later { self.now.at ≤ tick }
        requires range { is_clock_value (target_of self.now tick +ℤ amount) ≡ true }
        ensures value { result ≡ (if is_step amount then pos 0 else slew_rest self.now tick +ℤ
            amount) }
        ensures low { negsuc 2147483647999999 <ℤ ((target_of self.now tick +ℤ amount) -ℤ result) }
        ensures high { ((target_of self.now tick +ℤ amount) -ℤ result) ≤ℤ pos
            (2147483648000000 + tick) }
    {
        if is_step(amount) {
            0
        } else {
            self.rest(tick) + amount
        }
    }

    /// Sets the target and what is still to be slewed at a tick, and moves on to the next ticket.
    fn correct(&mut self, tick: u64, target: i64, rest: i64)
        requires tick { IsTick tick }
        requires target { is_clock_value target ≡ true }
        requires shown_low { negsuc 2147483647999999 <ℤ (target -ℤ rest) }
        requires shown_high { (target -ℤ rest) ≤ℤ pos (2147483648000000 + tick) }
        ensures { self.new ≡ record {
          offset = target -ℤ pos tick;
          rest = rest;
          at = tick;
          ticket = (self.old.ticket + 1) % 32768;
        } }
    {
        *self = Clock {
            offset: offset_at(target, tick),
            rest,
            at: tick,
            ticket: (self.ticket + 1) % 32768,
        };
    }

    /// Sets the target and the shown value, and gives the microseconds by which the target moved. `Range` comes
    /// exactly where the value isn't strictly between -`LIMIT` and `LIMIT`; then nothing changes.
    pub fn set(&mut self, tick: u64, value: i64) -> Result<i64, ClockFault>
        requires tick { IsTick tick }
        requires later { self.old.at ≤ tick }
        ensures ok { IfOk result (λ amount. (is_clock_value value ≡ true)
            × ((amount ≡ value -ℤ target_of self.old tick)
            × (self.new ≡ set_to self.old tick value))) }
        ensures err { IfErr result (λ e. (is_clock_value value ≡ false) × (self.new ≡ self.old)) }
    {
        if !is_clock_value(value) {
            return Err(ClockFault::Range);
        }
        let amount = value - self.target(tick);
        self.correct(tick, value, 0);
        Ok(amount)
    }
}

/// How far a target is ahead of the ticks, in microseconds.
fn offset_at(target: i64, tick: u64) -> i64
    requires tick { IsTick tick }
    requires range { is_clock_value target ≡ true }
    ensures value { result ≡ target -ℤ pos tick }
    ensures small { nat_abs result < 2 ^ 62 }
{
    target - tick as i64
}

/// Whether a clock may have this value: it is strictly between -`LIMIT` and `LIMIT`.
pub fn is_clock_value(value: i64) -> bool
    ensures { result ≡ is_clock_value value }
{
    -LIMIT < value && value < LIMIT
}

/// Whether an amount is stepped, not slewed.
fn is_step(amount: i64) -> bool
    ensures { result ≡ is_step amount }
{
    amount.unsigned_abs() > MAXADJ
}
