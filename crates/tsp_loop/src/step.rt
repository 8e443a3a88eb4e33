//! What a node does with a LOOP.
ghost use Rattle.std.specs.Prelude.{◌≡◌, Bool, true, false, MatchOption};
ghost use Rattle.tsp_base.specs.declared.kind.Kind.TheVariants.{Loop};
ghost use Rattle.tsp_rules.specs.GateRows.{judge, one_hop_less, same_name};
ghost use Rattle.tsp_loop.specs.Steps.{has_hops, judge_own, loop_step_of};

use tsp_base::constants::HOPS;
use tsp_base::message::{Body, Message};
use tsp_base::name::Name;
use tsp_base::place::Port;

/// What a node does with a LOOP.
#[derive(Drop)]
pub enum LoopStep {
    /// Nothing.
    PassOver,
    /// It stops leading on the port: another gateway joins this port's network to that of a lower port.
    GiveUp,
    /// It posts this message to the peers of its other ports.
    Forward(Message),
}

/// What a node with this name and so many ports does with a LOOP that it took on a port. An own LOOP
/// that came back on a higher port than it was sent from makes it give up. Another node's with 1 to
/// `HOPS` hops is passed on with one less. Every other one is ignored, and so are all where the node
/// has one port.
pub fn judge(own: &Name, ports: u8, port: Port, m: &Message) -> LoopStep
    requires { m.now.kind ≡ Loop }
    ensures { loop_step_of result ≡ judge own.now ports port m.now }
{
    if ports < 2 {
        return LoopStep::PassOver;
    }
    if is_same(m.name(), own) {
        return back(m.number(), port);
    }
    match one_hop_less(m) {
        Some(next) => LoopStep::Forward(next),
        None => LoopStep::PassOver,
    }
}

/// What a node does with its own LOOP that came back on a port.
fn back(number: u16, port: Port) -> LoopStep
    ensures { loop_step_of result ≡ judge_own number port }
{
    if number < u16::from(port.0) {
        LoopStep::GiveUp
    } else {
        LoopStep::PassOver
    }
}

/// Whether two names are the same.
fn is_same(name: &Name, own: &Name) -> bool
    ensures { result ≡ same_name name.now own.now }
{
    name.octets() == own.octets()
}

/// The same LOOP with one hop less; None where it has none, or more than `HOPS`.
fn one_hop_less(m: &Message) -> Option<Message>
    requires { m.now.kind ≡ Loop }
    ensures { MatchOption result (has_hops m.now ≡ false) (λ next. (has_hops m.now ≡ true)
        × (next ≡ one_hop_less m.now)) }
{
    let Body::Hops(hops) = m.body() else {
        return None;
    };
    if 1 <= hops && hops <= HOPS {
        let body = Body::Hops(hops - 1);
        Some(Message::new(m.kind(), m.number(), body, m.name().copy()))
    } else {
        None
    }
}
