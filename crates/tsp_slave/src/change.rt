//! What a correction asks of the clock.
ghost use Rattle.std.specs.Prelude.{◌≡◌, ◌≤◌, ◌+ℤ◌, true};
ghost use Rattle.tsp_acks.specs.Calls.{IsTick, Performs, Uses};
ghost use Rattle.tsp_rules.specs.Guards.{is_clock_value};
ghost use Rattle.tsp_clock.specs.ClockStands.{ClockStands};
ghost use Rattle.tsp_slave.specs.ClockChanges.{change_in, changes_clock, fits};

use tsp_base::at::At;
use tsp_base::desk::Desk;
use tsp_base::kind::Kind;
use tsp_base::message::{Body, Message};
use tsp_clock::clock::{Clock, is_clock_value};

/// What a correction asks of the clock, in microseconds; a value is counted since 1970.
#[derive(Clone, Copy)]
pub(crate) enum Change {
    /// To move by this amount.
    By(i64),
    /// To be set to this value.
    To(i64),
}

impl Change {
    /// What a correction asks: a SETTIME sets the clock to its time, an ADJTIME moves it by its time.
    pub(crate) fn of(m: &Message) -> Change
        ensures { result ≡ change_in m.now }
    {
        let time = match m.body() {
            Body::Time(t) => t.get(),
            _ => 0,
        };
        match m.kind() {
            Kind::SetTime => Change::To(time),
            _ => Change::By(time),
        }
    }

    /// Whether the clock stays in its range: strictly between -`LIMIT` and `LIMIT`.
    pub(crate) fn fits(self, clock: &Clock, tick: u64) -> bool
        requires tick { IsTick tick }
        requires later { clock.now.at ≤ tick }
        ensures { result ≡ fits clock.now tick self }
    {
        match self {
            Change::By(amount) => clock.can_adjust(tick, amount),
            Change::To(value) => is_clock_value(value),
        }
    }

    /// Changes the clock so. It must stay in its range.
    pub(crate) fn make<D: Desk>(self, clock: &mut Clock, at: At, desk: &mut D)
        requires tick { IsTick at.tick }
        requires later { clock.old.at ≤ at.tick }
        requires range { fits clock.old at.tick self ≡ true }
        requires room { 1 ≤ D.spare desk.old }
        ensures row { Performs ClockStands ClockStands (changes_clock self) at.tick at.port
            clock.old clock.new (D.acts desk.old) (D.acts desk.new) }
        ensures room { Uses 1 D.spare D.acts desk.old desk.new }
        ensures clock { clock.new.at ≤ at.tick }
    {
        match self {
            Change::By(amount) => clock.correct_by(at.tick, amount, at.port, desk),
            Change::To(value) => clock.correct_to(at.tick, value, at.port, desk),
        }
    }
}
