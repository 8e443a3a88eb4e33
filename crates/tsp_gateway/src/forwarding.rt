//! What a gateway does with a LOOP that a port took.
ghost use Rattle.std.specs.Prelude.{◌≡◌, ◌≤◌, ◌<◌, ◌+◌, ℕ, not, length};
ghost use Rattle.tsp_base.specs.declared.kind.Kind.TheVariants.{Loop};
ghost use Rattle.tsp_base.specs.declared.datagram.Datagram.TheVariants.{Message as MessageOf};
ghost use Rattle.tsp_base.specs.declared.datagram.Taken.TheVariants.{Good};
ghost use Rattle.tsp_base.specs.Frames.{IsTick, UsesAtMost};
ghost use Rattle.tsp_rules.specs.GateRows.{forwards, hears_on, judges, loosens_master, reposts_on, takes_loop};
ghost use Rattle.tsp_rules.specs.NodePerforms.{PerformsAll};
ghost use Rattle.tsp_rules.specs.NodeRows.{NodePast, on};
ghost use Rattle.tsp_rules.specs.Guards.{is_starting_role};
ghost use Rattle.tsp_gateway.specs.GatewayStands.{GatewayStands, clock_at, port_at};
ghost use Rattle.tsp_gateway.specs.Rooms.{peers_sum, peers_at, ports_in};

use crate::gateway::{Gateway, port_at};
use crate::looping::repost;
use tsp_base::desk::Desk;
use tsp_base::message::Message;
use tsp_base::place::Place;
use tsp_base::role::Role;
use tsp_loop::{LoopStep, judge};

/// Whether the quiet time of a port of this role is over.
fn is_awake(role: Role) -> bool
    ensures { result ≡ not (is_starting_role role) }
{
    !matches!(role, Role::Starting)
}

impl Gateway {
    /// Whether a port heeds this sender: it is another one of its peers, and the quiet time is over.
    #[tactic(auto, using(crate::proofs::AnyLemmas::places))]
    pub(crate) fn hears(&self, q: usize, from: Place) -> bool
        requires { q < length (ports_in self.now) }
        ensures { (x : ℕ) (past : NodePast) → GatewayStands past self.now
            → result ≡ hears_on from (port_at q) x past }
    {
        let station = self.ports[q].station();
        match from {
            Place::Peer(p) => station.hears(p) && p.0 != station.me.own.0,
            Place::Stranger => false,
        }
    }

    /// Passes on another node's LOOP, or stops leading on a port where an own one came back, as `judge` of
    /// `tsp_loop` says.
    #[tactic(auto, using(crate::proofs::AnyLemmas::places, crate::proofs::AnyLemmas::ports_few))]
    pub(crate) fn judge_loop<D: Desk>(&mut self, q: usize, m: &Message, tick: u64, desk: &mut D)
        requires kind { m.now.kind ≡ Loop }
        requires port { q < length (ports_in self.old) }
        requires room { peers_sum (ports_in self.old) + 2 ≤ D.spare desk.old }
        requires tick { IsTick tick }
        ensures row { PerformsAll GatewayStands GatewayStands (judges (port_at q) m.now) tick
            self.old self.new (D.acts desk.old) (D.acts desk.new) }
        ensures ports { ports_in self.new ≡ ports_in self.old }
        ensures clock { clock_at self.new ≡ clock_at self.old }
        ensures room { UsesAtMost (peers_sum (ports_in self.old) + 2)
            D.spare D.acts desk.old desk.new }
    {
        let own = &self.ports[q].station().me.name;
        match judge(own, self.many(), port_at(q), m) {
            LoopStep::PassOver => {}
            LoopStep::GiveUp => self.give_up(q, tick, desk),
            LoopStep::Forward(next) => self.forward(q, &next, desk),
        }
    }

    /// How many ports the node has.
    fn many(&self) -> u8
        ensures { result ≡ length self.now.ports.items }
    {
        self.ports.len() as u8
    }

    /// A port that is master stops leading.
    #[tactic(auto, using(crate::proofs::AnyLemmas::places, crate::proofs::AnyLemmas::ports_few))]
    fn give_up<D: Desk>(&mut self, q: usize, tick: u64, desk: &mut D)
        requires port { q < length (ports_in self.old) }
        requires room { 2 ≤ D.spare desk.old }
        requires tick { IsTick tick }
        ensures row { PerformsAll GatewayStands GatewayStands (on (port_at q) loosens_master) tick
            self.old self.new (D.acts desk.old) (D.acts desk.new) }
        ensures ports { ports_in self.new ≡ ports_in self.old }
        ensures clock { clock_at self.new ≡ clock_at self.old }
        ensures room { UsesAtMost 2 D.spare D.acts desk.old desk.new }
    {
        self.ports[q].loosen(tick, port_at(q), desk);
    }

    /// Posts a LOOP to each other peer of each other port whose quiet time is over.
    fn forward<D: Desk>(&self, q: usize, m: &Message, desk: &mut D)
        requires kind { m.now.kind ≡ Loop }
        requires room { peers_sum (ports_in self.now) ≤ D.spare desk.old }
        ensures row { (x : ℕ) → PerformsAll GatewayStands GatewayStands (forwards (port_at q) m.now)
            x self.now self.now (D.acts desk.old) (D.acts desk.new) }
        ensures room { UsesAtMost (peers_sum (ports_in self.now)) D.spare D.acts desk.old desk.new }
    {
        for r in 0..self.ports.len() {
            if r != q {
                self.forward_on(r, m, desk);
            }
        }
    }

    /// Posts a LOOP to each other peer of a port, where its quiet time is over.
    #[tactic(auto, using(crate::proofs::AnyLemmas::places, crate::proofs::AnyLemmas::ports_few))]
    fn forward_on<D: Desk>(&self, r: usize, m: &Message, desk: &mut D)
        requires kind { m.now.kind ≡ Loop }
        requires port { r < length (ports_in self.now) }
        requires room { peers_at r (ports_in self.now) ≤ D.spare desk.old }
        ensures row { (x : ℕ)
            → PerformsAll GatewayStands GatewayStands (reposts_on m.now (port_at r)) x self.now
            self.now (D.acts desk.old) (D.acts desk.new) }
        ensures room { UsesAtMost (peers_at r (ports_in self.now))
            D.spare D.acts desk.old desk.new }
    {
        let station = self.ports[r].station();
        if is_awake(station.role) {
            repost(station, m, port_at(r), desk);
        }
    }
}
