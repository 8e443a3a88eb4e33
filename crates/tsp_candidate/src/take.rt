//! What a candidate does with a message of a peer.
ghost use Rattle.std.specs.Prelude.{◌≤◌};
ghost use Rattle.tsp_rules.specs.CandidateRows.{candidate_takes};
ghost use Rattle.tsp_acks.specs.Calls.{Contains, IsTick, UsesAtMost, IsSamePort};
ghost use Rattle.tsp_slave.specs.SlaveStands.{ActsOn, IsMessageFrom, slave};

use crate::answers::{take_accept, take_refuse};
use tsp_acks::station::Station;
use tsp_base::at::At;
use tsp_base::desk::Desk;
use tsp_base::kind::Kind;
use tsp_base::message::Message;
use tsp_base::place::{PeerId, Port};
use tsp_clock::clock::Clock;
use tsp_slave::follow::follow;
use tsp_slave::last::Last;
use tsp_slave::quit::take_quit;

/// Handles a message of another peer at a candidate. It follows a master, and whoever sends it a QUIT; it
/// refuses any other candidate, since it has backed itself; and answers to its own ELECTIONs count. It puts
/// at most five acts.
pub fn candidate_take<D: Desk>(
    station: &mut Station,
    last: &mut Last,
    clock: &Clock,
    tick: u64,
    from: PeerId,
    m: &Message,
    port: Port,
    desk: &mut D,
)
    requires tick { IsTick tick }
    requires room { 5 ≤ D.spare desk.old }
    requires peer { Contains station.old.peers from }
    ensures row { ActsOn (IsMessageFrom from m.now) (candidate_takes from m.now) tick port
        (slave station.old last.old clock.now) (slave station.new last.new clock.now)
        D.acts desk.old desk.new }
    ensures room { UsesAtMost 5 D.spare D.acts desk.old desk.new }
    ensures port { IsSamePort station.old station.new }
{
    let number = m.number();
    match m.kind() {
        Kind::MasterUp | Kind::MasterAck => {
            follow(station, last, clock, tick, from, m.name(), port, desk)
        }
        Kind::Election => station.post(from, Kind::Refuse, number, port, desk),
        Kind::Accept => take_accept(station, from, number, port, desk),
        Kind::Refuse => take_refuse(station, tick, from, number, port, desk),
        Kind::Quit => take_quit(station, last, clock, At { tick, port }, from, m, desk),
        Kind::Ack => {
            let _ = station.acknowledge(from, number, port, desk);
        }
        _ => {}
    }
}
