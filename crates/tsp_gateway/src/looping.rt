//! The LOOPs that a gateway sends.
ghost use Rattle.std.specs.Prelude.{◌≡◌, ◌≤◌, ◌<◌, ◌++◌, ℕ, length, map};
ghost use Rattle.tsp_base.specs.Frames.{UsesAtMost};
ghost use Rattle.tsp_base.specs.Rows.{others, placed};
ghost use Rattle.tsp_rules.specs.GateRows.{repost, sends_loops};
ghost use Rattle.tsp_rules.specs.NodePerforms.{PerformsAll};
ghost use Rattle.tsp_rules.specs.NodeRows.{on};
ghost use Rattle.tsp_gateway.specs.GatewayStands.{GatewayStands, port_at};
ghost use Rattle.tsp_gateway.specs.Rooms.{peers_at, ports_in};

use crate::gateway::{Gateway, port_at};
use tsp_acks::station::Station;
use tsp_base::act::Act;
use tsp_base::constants::HOPS;
use tsp_base::datagram::Datagram;
use tsp_base::desk::Desk;
use tsp_base::kind::Kind;
use tsp_base::message::{Body, Message};
use tsp_base::place::{Place, Port};

/// Posts a message as it is to each other peer of a port, ascending.
pub(crate) fn repost<D: Desk>(station: &Station, message: &Message, port: Port, desk: &mut D)
    requires room { length station.now.peers ≤ D.spare desk.old }
    ensures acts { D.acts desk.new ≡ D.acts desk.old ++ placed port
        (map (repost message.now) (others station.now.me.own station.now.peers)) }
    ensures room { UsesAtMost (length station.now.peers) D.spare D.acts desk.old desk.new }
{
    for p in station.peers() {
        if p.0 != station.me.own.0 {
            let datagram = Datagram::Message(message.copy());
            desk.put(port, Act::Post(Place::Peer(*p), datagram));
        }
    }
}

impl Gateway {
    /// Posts a LOOP to each other peer of a port, with the port's number, the node's name and `HOPS` hops.
    #[tactic(auto, using(crate::proofs::AnyLemmas::places, crate::proofs::AnyLemmas::ports_few))]
    pub(crate) fn send_loops<D: Desk>(&self, q: usize, desk: &mut D)
        requires port { q < length (ports_in self.now) }
        requires room { peers_at q (ports_in self.now) ≤ D.spare desk.old }
        ensures row { (x : ℕ)
            → PerformsAll GatewayStands GatewayStands (on (port_at q) (sends_loops (port_at q))) x
            self.now self.now (D.acts desk.old) (D.acts desk.new) }
        ensures room { UsesAtMost (peers_at q (ports_in self.now))
            D.spare D.acts desk.old desk.new }
    {
        let station = self.ports[q].station();
        let name = station.me.name.copy();
        let message = Message::new(Kind::Loop, q as u16, Body::Hops(HOPS), name);
        repost(station, &message, port_at(q), desk);
    }
}
