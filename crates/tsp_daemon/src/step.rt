//! The node's step in a turn.
ghost use Rattle.std.specs.Prelude.{◌≡◌, ◌≤◌, ◌<◌, ◌^◌, [], length, OnOk};
ghost use Rattle.tsp_base.specs.Frames.{IsTick};
ghost use Rattle.tsp_daemon.specs.Ends.{IsCount, given_by};
ghost use Rattle.tsp_base.specs.Pad.{acts_of, spare_of};
ghost use Rattle.tsp_gateway.specs.GatewayStands.{GatewayStands, GatewayBegun, clock_at};
ghost use Rattle.tsp_gateway.specs.PortOf.{setups_in};
ghost use Rattle.tsp_gateway.specs.Rooms.{ports_in, room_of_ports};
ghost use Rattle.tsp_rules.specs.GateRows.{answers_all};
ghost use Rattle.tsp_rules.specs.NodePerforms.{PerformsAll};
ghost use Rattle.tsp_daemon.specs.Sessions.{port_from};

use std::alloc::AllocError;
use tsp_base::desk::Desk;
use tsp_base::input::Input;
use tsp_base::pad::Pad;
use tsp_base::place::{Place, Port};
use tsp_gateway::Gateway;
use tsp_io::link::Recv;

/// Empties the pad, on which the acts of a step are put, and makes room for `room` acts. Fails only
/// if out of memory; after the first turn there is room already.
pub(crate) fn make_room(pad: &mut Pad, room: usize) -> Result<(), AllocError>
    ensures idle { acts_of pad.new ≡ [] }
    ensures room { OnOk result (room ≤ spare_of pad.new) }
{
    pad.clear();
    pad.reserve(room)
}

/// The port on which the node takes a datagram: from a peer, the lowest port that has it; from a
/// stranger, port 0.
fn port_from(node: &Gateway, from: Place) -> Port
    ensures value { result ≡ port_from (setups_in node.now) from }
    ensures inside { result.0 < length (ports_in node.now) }
{
    match from {
        Place::Peer(p) => node.port_of(p),
        Place::Stranger => Port(0),
    }
}

/// A step of the node with what a receive gave. Its acts are all that is on the pad afterwards.
pub(crate) fn step(node: &mut Gateway, tick: u64, received: Recv, octets: &[u8], pad: &mut Pad)
    requires tick { IsTick tick }
    requires later { clock_at node.old ≤ tick }
    requires room { room_of_ports (ports_in node.old) ≤ spare_of pad.old }
    requires idle { acts_of pad.old ≡ [] }
    requires count { IsCount received (length octets.now) }
    ensures row { PerformsAll GatewayBegun GatewayStands
        (answers_all (given_by (setups_in node.old) received octets.now)) tick node.old node.new []
        (acts_of pad.new) }
    ensures ports { ports_in node.new ≡ ports_in node.old }
    ensures clock { clock_at node.new ≤ tick }
    ensures few { length (acts_of pad.new) ≤ room_of_ports (ports_in node.old) }
{
    match received {
        Recv::Datagram(from, count) => {
            let input = Input::Bytes {
                port: port_from(node, from),
                from,
                octets: &octets[..count],
            };
            node.step(tick, &input, pad);
        }
        Recv::Nothing => node.turn(tick, pad),
        Recv::Failed => node.turn(tick, pad),
    }
}
