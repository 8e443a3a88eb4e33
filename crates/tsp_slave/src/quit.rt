//! What a port does that a peer asks to stop leading, whatever its role.
ghost use Rattle.std.specs.Prelude.{◌≤◌};
ghost use Rattle.tsp_acks.specs.Calls.{Contains, IsTick, UsesAtMost, IsSamePort};
ghost use Rattle.tsp_rules.specs.CommonRows.{quits};
ghost use Rattle.tsp_slave.specs.SlaveStands.{ActsOn, IsNamed, slave};

use crate::follow::follow;
use crate::last::Last;
use tsp_acks::station::Station;
use tsp_base::at::At;
use tsp_base::desk::Desk;
use tsp_base::kind::Kind;
use tsp_base::message::Message;
use tsp_base::place::PeerId;
use tsp_base::role::Role;
use tsp_clock::clock::Clock;

/// Takes a QUIT of a peer, the message that this step took: the port doesn't stand for election for
/// `ELECT_MIN` ticks, acknowledges the QUIT, and follows its sender unless it follows a master
/// already. At most five acts.
pub fn take_quit<D: Desk>(
    station: &mut Station,
    last: &mut Last,
    clock: &Clock,
    at: At,
    from: PeerId,
    m: &Message,
    desk: &mut D,
)
    requires tick { IsTick at.tick }
    requires room { 5 ≤ D.spare desk.old }
    requires peer { Contains station.old.peers from }
    ensures row { ActsOn (IsNamed m.now.name) (quits from m.now.number) at.tick at.port
        (slave station.old last.old clock.now) (slave station.new last.new clock.now)
        D.acts desk.old desk.new }
    ensures room { UsesAtMost 5 D.spare D.acts desk.old desk.new }
    ensures port { IsSamePort station.old station.new }
{
    station.quit(from, at.tick, at.port, desk);
    station.post(from, Kind::Ack, m.number(), at.port, desk);
    match station.role {
        Role::Follow(_) => {}
        _ => follow(station, last, clock, at.tick, from, m.name(), at.port, desk),
    }
}
