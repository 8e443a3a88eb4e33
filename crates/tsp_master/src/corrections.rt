//! The corrections that a master sends.
ghost use Rattle.std.specs.Prelude.{◌≡◌, ◌≤◌, is_some, IfSome};
ghost use Rattle.tsp_rules.specs.Guards.{is_clock_value};
ghost use Rattle.tsp_rules.specs.SendRows.{begins_adjtime, begins_settime};
ghost use Rattle.tsp_acks.specs.Calls.{Contains, IsTick, Performs, UsesAtMost, IsSamePort};
ghost use Rattle.tsp_clock.specs.Clocks.{ClockValue, target_of};
ghost use Rattle.tsp_measure.specs.Slaves.{peers_of};
ghost use Rattle.tsp_master.specs.Frames.{ChangesOnly, MayServe};

use crate::master::Master;
use tsp_acks::station::Station;
use tsp_base::at::At;
use tsp_base::desk::Desk;
use tsp_base::kind::Kind;
use tsp_base::micros::Micros;
use tsp_base::place::PeerId;
use tsp_clock::clock::{Clock, is_clock_value};
use tsp_measure::Change;

impl Master {
    ghost use Rattle.tsp_master.specs.MasterStands.{LeadStands, lead_of};

    /// Begins an ADJTIME with this number and amount, in microseconds, to a peer, where a correction may begin.
    pub(crate) fn begin_adjtime<D: Desk>(
        &mut self,
        station: &mut Station,
        at: At,
        peer: PeerId,
        number: u16,
        amount: Micros,
        desk: &mut D,
    )
        requires tick { IsTick at.tick }
        requires room { 1 ≤ D.spare desk.old }
        requires same { peers_of self.old.slaves ≡ station.old.peers }
        requires peer { Contains station.old.peers peer }
        ensures row { (clock : ClockValue)
            → Performs LeadStands LeadStands (begins_adjtime peer number amount) at.tick at.port
            (lead_of self.old station.old clock) (lead_of self.new station.new clock)
            (D.acts desk.old) (D.acts desk.new) }
        ensures room { UsesAtMost 1 D.spare D.acts desk.old desk.new }
        ensures port { IsSamePort station.old station.new }
        ensures only { ChangesOnly peer self.old self.new }
    {
        if self.slaves.of(peer).may_correct(number, at.tick) {
            station.begin_correction(Kind::AdjTime, peer, number, amount, at, desk);
            self.slaves.change(peer, Change::Begin(at.tick, number));
        }
    }

    /// Begins a SETTIME with this number and the clock's target to a peer, where a correction may
    /// begin and the target is strictly between -`LIMIT` and `LIMIT`.
    pub(crate) fn begin_settime<D: Desk>(
        &mut self,
        station: &mut Station,
        clock: &Clock,
        at: At,
        peer: PeerId,
        number: u16,
        desk: &mut D,
    )
        requires ready { MayServe peer at.tick (lead_of self.old station.old clock.now) }
        requires room { 1 ≤ D.spare desk.old }
        ensures row { Performs LeadStands LeadStands (begins_settime peer number) at.tick at.port
            (lead_of self.old station.old clock.now) (lead_of self.new station.new clock.now)
            (D.acts desk.old) (D.acts desk.new) }
        ensures room { UsesAtMost 1 D.spare D.acts desk.old desk.new }
        ensures port { IsSamePort station.old station.new }
        ensures only { ChangesOnly peer self.old self.new }
    {
        match settable(clock, at.tick) {
            None => {}
            Some(value) => {
                if self.slaves.of(peer).may_correct(number, at.tick) {
                    station.begin_correction(Kind::SetTime, peer, number, value, at, desk);
                    self.slaves.change(peer, Change::Begin(at.tick, number));
                }
            }
        }
    }
}

/// A clock's target in microseconds, as a message has it; None exactly where it isn't strictly between
/// -`LIMIT` and `LIMIT`.
fn settable(clock: &Clock, tick: u64) -> Option<Micros>
    requires tick { IsTick tick }
    requires later { clock.now.at ≤ tick }
    ensures range { is_some result ≡ is_clock_value (target_of clock.now tick) }
    ensures value { IfSome result (λ v. v ≡ target_of clock.now tick) }
{
    let target = clock.target(tick);
    if is_clock_value(target) {
        Micros::of(target)
    } else {
        None
    }
}
