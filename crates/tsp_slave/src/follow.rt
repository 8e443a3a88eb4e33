//! How a port begins to follow a master, and tells it so.
ghost use Rattle.std.specs.Prelude.{◌≡◌, ℕ, ◌+◌, ◌≤◌, Option, None, Some};
ghost use Rattle.tsp_base.specs.declared.alarm.Alarm.TheVariants.{Elect};
ghost use Rattle.tsp_base.specs.declared.place.PeerId.{PeerId};
ghost use Rattle.tsp_base.specs.declared.role.Role.TheVariants.{Follow};
ghost use Rattle.tsp_base.specs.Alarms.{with_deadline, none_armed};
ghost use Rattle.tsp_acks.specs.Calls.{Contains, IsTick, Received, Performs, Uses};
ghost use Rattle.tsp_rules.specs.CommonRows.{follow_row, tells_ticket};
ghost use Rattle.tsp_rules.specs.Guards.{delay};
ghost use Rattle.tsp_sends.specs.Slots.{sending_to};
ghost use Rattle.tsp_slave.specs.Lasts.{LastValue};
ghost use Rattle.tsp_slave.specs.SlaveStands.{ActsOn, IsNamed, SlaveStands, slave};

use crate::last::Last;
use tsp_acks::station::Station;
use tsp_base::desk::Desk;
use tsp_base::kind::Kind;
use tsp_base::name::Name;
use tsp_base::place::{PeerId, Port};
use tsp_base::role::Role;
use tsp_clock::clock::Clock;

/// Follows one of the peers as its master, keeps the name in the message that was taken of it, and
/// tells it the clock's ticket by a SLAVEUP. If nothing is heard of it for the election delay, the Elect
/// alarm rings. It puts three acts.
pub fn follow<D: Desk>(
    station: &mut Station,
    last: &mut Last,
    clock: &Clock,
    tick: u64,
    p: PeerId,
    name: &Name,
    port: Port,
    desk: &mut D,
)
    requires tick { IsTick tick }
    requires room { 3 ≤ D.spare desk.old }
    requires peer { Contains station.old.peers p }
    ensures row { ActsOn (IsNamed name.now) (follow_row p) tick port
        (slave station.old last.old clock.now) (slave station.new last.new clock.now)
        D.acts desk.old desk.new }
    ensures me { station.new.me ≡ station.old.me }
    ensures role { station.new.role ≡ Follow p }
    ensures hold { station.new.hold ≡ station.old.hold }
    ensures sends { (q : PeerId) → sending_to station.new.sends q ≡ None }
    ensures alarms { station.new.alarms ≡ with_deadline none_armed Elect
        (Some (tick + delay station.old.me.word)) }
    ensures begun { station.new.begun ≡ station.old.begun }
    ensures peers { station.new.peers ≡ station.old.peers }
    ensures last { last.new ≡ record last.old { name = name.now } }
    ensures room { Uses 3 D.spare D.acts desk.old desk.new }
{
    station.become_role(Role::Follow(p), port, desk);
    last.keep_name(name);
    station.arm_elect(tick, port, desk);
    tell_ticket(station, clock, p, port, desk);
}

/// Tells a master by a SLAVEUP that it is followed, and the clock's ticket: the number that its next
/// correction must have.
pub(crate) fn tell_ticket<D: Desk>(
    station: &Station,
    clock: &Clock,
    p: PeerId,
    port: Port,
    desk: &mut D,
)
    requires room { 1 ≤ D.spare desk.old }
    ensures row { (x : ℕ) (last : LastValue) (took : Option Received)
        → Performs SlaveStands SlaveStands (tells_ticket p) x port
        (slave station.now last clock.now took) (slave station.now last clock.now took)
        (D.acts desk.old) (D.acts desk.new) }
    ensures room { Uses 1 D.spare D.acts desk.old desk.new }
{
    station.post(p, Kind::SlaveUp, clock.ticket(), port, desk);
}
