//! The causes for which an event is refused, each by itself.
ghost use Rattle.std.specs.Prelude.{◌≤◌, length};

use tsp_base::event::{Event, EventFault};
use tsp_base::members::Members;
use tsp_base::octets::Octets;
use tsp_base::place::{PeerId, Place, Port};
use tsp_networks::refusals::{down_at, first_of, no_node, time_back, time_of};

/// Octets that reach a node on a port, and seem to come from this place.
fn bytes(node: u32, port: u8, from: Place) -> Option<Event> {
    let octets = Octets::of(b"x")?;
    Some(Event::Bytes {
        at: 5,
        node,
        port: Port(port),
        from,
        octets,
    })
}

#[test]
fn time_may_stand_and_not_go_back(rt: HostRuntime) {
    let turn = Event::Turn { at: 9, node: 0 };
    let take = Event::Take { at: 8, datagram: 3 };
    let read = time_of(&turn) == 9 && time_of(&take) == 8;
    assert!(rt; read && time_back(9, 9).is_none());
    assert!(rt; time_back(9, 10) == Some(EventFault::TimeBack(9, 10)));
}

/// Whether octets for a node on a port, from a peer, are refused for this fault where there are two nodes.
fn is_refused(nets: &[Members], node: u32, port: u8, from: u32, fault: Option<EventFault>) -> bool
    requires { length nets.now ≤ 64 }
{
    match bytes(node, port, Place::Peer(PeerId(from))) {
        Some(event) => no_node(2, nets, &event) == fault,
        None => false,
    }
}

/// Nodes, ports and senders, and why octets are refused.
const HANDED: &[(u32, u8, u32, Option<EventFault>)] = &[
    (1, 0, 0, None),
    (2, 0, 0, Some(EventFault::NoNode(2, 2))),
    (1, 1, 0, Some(EventFault::NoNode(1, 2))),
    (1, 0, 2, Some(EventFault::NoNode(2, 2))),
    (1, 1, 2, Some(EventFault::NoNode(1, 2))),
];

/// Whether they are refused so on these networks.
fn are_refused(nets: &[Members]) -> bool
    requires { length nets.now ≤ 64 }
{
    for (node, port, from, fault) in HANDED {
        if !is_refused(nets, *node, *port, *from, *fault) {
            return false;
        }
    }
    true
}

#[test]
fn nodes_ports_and_senders_must_be_there(rt: HostRuntime) {
    let Some(both) = Members::of(&[0, 1]) else {
        panic!(rt; "no network");
    };
    let nets = [both];
    let boot = Event::Boot {
        at: 0,
        node: 2,
        word: 1,
    };
    let refused = no_node(2, &nets, &boot) == Some(EventFault::NoNode(2, 2));
    let turns = no_node(2, &nets, &Event::Turn { at: 0, node: 1 }).is_none();
    let takes = no_node(2, &nets, &Event::Take { at: 0, datagram: 7 }).is_none();
    assert!(rt; refused && turns && takes && are_refused(&nets));
}

#[test]
fn the_first_cause_comes(rt: HostRuntime) {
    let down = down_at(false, 4);
    assert!(rt; down == Some(EventFault::NotUp(4)) && down_at(true, 4).is_none());
    assert!(rt; first_of(time_back(1, 2), down) == Some(EventFault::TimeBack(1, 2)));
    assert!(rt; first_of(None, down) == down && first_of(down, None) == down);
}
