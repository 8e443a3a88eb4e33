//! Why an event is refused, so far as that depends on the last event's time, the nodes, their
//! networks, and who is up.
ghost use Rattle.std.specs.Prelude.{◌≡◌, ◌≤◌, length};
ghost use Rattle.tsp_run.specs.Refusals.{Scene, down_at, first_of, lacks_port, no_node, time_back};
ghost use Rattle.tsp_run.specs.Refusals.{unknown, unknown_place};
ghost use Rattle.tsp_run.specs.Run.{event_at};

use crate::port_count;
use tsp_base::event::{Event, EventFault};
use tsp_base::members::Members;
use tsp_base::place::{Place, Port};

/// The first of two causes; None where there is neither.
pub fn first_of(first: Option<EventFault>, second: Option<EventFault>) -> Option<EventFault>
    ensures { result ≡ first_of first second }
{
    match first {
        Some(fault) => Some(fault),
        None => second,
    }
}

/// The true time of an event, in microseconds.
pub fn time_of(e: &Event) -> u64
    ensures { result ≡ event_at e.now }
{
    match e {
        Event::Boot { at, .. } => *at,
        Event::Turn { at, .. } => *at,
        Event::Take { at, .. } => *at,
        Event::Bytes { at, .. } => *at,
    }
}

/// `TimeBack` with both times, in microseconds, exactly where the event's time is before that of the last
/// event.
pub fn time_back(at: u64, last: u64) -> Option<EventFault>
    ensures { result ≡ time_back at last }
{
    if at < last {
        Some(EventFault::TimeBack(at, last))
    } else {
        None
    }
}

/// `NoNode` where no node has this number.
fn unknown(nodes: u32, n: u32) -> Option<EventFault>
    ensures { result ≡ unknown nodes n }
{
    if n < nodes {
        None
    } else {
        Some(EventFault::NoNode(n, nodes))
    }
}

/// `NoNode` where the peer that octets seem to come from isn't a node.
fn unknown_place(nodes: u32, from: Place) -> Option<EventFault>
    ensures { result ≡ unknown_place nodes from }
{
    match from {
        Place::Peer(p) => unknown(nodes, p.0),
        Place::Stranger => None,
    }
}

/// `NoNode` exactly where no node has this number, or it doesn't have this port on these networks, or the sender
/// isn't a node. It has the number of the first of these that is wrong (for a port, of its node), and how many nodes
/// there are.
pub fn absent(
    nodes: u32,
    nets: &[Members],
    node: u32,
    port: Port,
    from: Place,
) -> Option<EventFault>
    requires { length nets.now ≤ 64 }
    ensures { (s : Scene) → s.nodes ≡ nodes → s.networks ≡ nets.now → result
        ≡ first_of (unknown nodes node) (first_of (lacks_port s node port)
        (unknown_place nodes from)) }
{
    if node >= nodes || (port.0 as usize) >= port_count(nets, node) {
        return Some(EventFault::NoNode(node, nodes));
    }
    unknown_place(nodes, from)
}

/// `NoNode` exactly where an event names a node that doesn't exist, a port that its node doesn't have on
/// these networks, or a sender that isn't a node. It has the number of the first of these that is
/// wrong (for a port, of its node), and how many nodes there are. A take names none.
pub fn no_node(nodes: u32, nets: &[Members], e: &Event) -> Option<EventFault>
    requires { length nets.now ≤ 64 }
    ensures { (s : Scene) → s.nodes ≡ nodes → s.networks ≡ nets.now → result ≡ no_node s e.now }
{
    match e {
        Event::Boot { node, .. } => unknown(nodes, *node),
        Event::Turn { node, .. } => unknown(nodes, *node),
        Event::Take { .. } => None,
        Event::Bytes {
            node,
            port,
            from,
            ..
        } => absent(nodes, nets, *node, *port, *from),
    }
}

/// `NotUp` with the node's number, exactly where the node isn't up.
pub fn down_at(up: bool, n: u32) -> Option<EventFault>
    ensures { result ≡ down_at up n }
{
    if up { None } else { Some(EventFault::NotUp(n)) }
}
